// The calls that drop all blocks: load (K7), fill and battery sync (K6).
ghost use Rattle.std.specs.Prelude.{◌≡◌, length};
ghost use Rattle.refusals.specs.Refusal.{refusal_of};
ghost use Rattle.call_refusals.specs.Refusals.{first_of, fill_checks, battery_checks};
ghost use Rattle.call_load.specs.Cartridge.{loaded};
ghost use Rattle.call_blocks.specs.Blocks.{with_directory, fill_leaves, fill_drops, sync_leaves, sync_drops};
ghost use Rattle.call_blocks.specs.Blocks.{load_gives, load_leaves, load_drops};

use board_state::State;
use call_load::Cartridge;
use directory::fitness::check_directory;
use memory::layout::Src;
use refusals::Refusal;

pub fn fill(
    d: &mut [u64],
    s: State,
    arena: &mut [u8],
    src: Src,
    bytes: &[u8],
) -> Result<(), Refusal>
    ensures value { refusal_of result
        ≡ first_of (with_directory d.old (fill_checks s (length arena.old) src (length bytes.now))) }
    ensures arena_after { arena.new ≡ fill_leaves d.old s arena.old src bytes.now }
    ensures d_after { d.new ≡ fill_drops d.old s arena.old src bytes.now }
{
    check_directory(d)?;
    call_regions::fill(s, arena, src, bytes)?;
    d.fill(0);
    Ok(())
}

pub fn sync_battery(d: &mut [u64], s: State, arena: &mut [u8]) -> Result<(), Refusal>
    ensures value { refusal_of result ≡ first_of (with_directory d.old (battery_checks s (length arena.old))) }
    ensures arena_after { arena.new ≡ sync_leaves d.old s arena.old }
    ensures d_after { d.new ≡ sync_drops d.old s arena.old }
{
    check_directory(d)?;
    call_battery::sync_battery(s, arena)?;
    d.fill(0);
    Ok(())
}

// It reads no place: a directory that is lent to a load may hold anything.
pub fn load(d: &mut [u64], arena: &mut [u8], cartridge: Cartridge) -> Result<State, Refusal>
    ensures value { loaded result ≡ load_gives d.old cartridge.mapper cartridge.submapper cartridge.flags cartridge.known
        cartridge.sizes cartridge.options (length arena.old) }
    ensures arena_after { arena.new ≡ load_leaves d.old cartridge.mapper cartridge.sizes arena.old }
    ensures d_after { d.new ≡ load_drops d.old cartridge.mapper cartridge.sizes arena.old }
{
    if d.len() != 256 {
        return Err(Refusal::State);
    }
    let fresh = call_load::load(arena, cartridge)?;
    d.fill(0);
    Ok(fresh)
}
