// The host's calls with a directory on a state (H4, K5): the answer's word (H6), the image of the state after it, and the places.
#![tactic(auto)]

ghost use Rattle.std.specs.Prelude.{◌≡◌, true, [], length};
ghost use Rattle.memory.specs.Range.{Sized};
ghost use Rattle.refusals.specs.Refusal.{refusal_of, word_of};
ghost use Rattle.call_refusals.specs.Refusals.{first_of};
ghost use Rattle.image_write.specs.Options.{option_set, room_for};
ghost use Rattle.directory_touched.specs.Touched.{shown_by};
ghost use Rattle.call_blocks.specs.Blocks.{with_directory, cpu_write_drops};
ghost use Rattle.host_blocks.specs.HostBlocks.{write_blocks_on, arena_byte, stored_drops};

use call_blocks::writes::cpu_write_known;
use call_refusals::known::KnownState;
use directory::drop_touched;
use directory::fitness::check_directory;
use directory_touched::shown_mask;
use host_state::changes_word;
use image_write::writing::put_image;
use memory::Memory;
use refusals::Refusal;
use refusals::word::Word;

// A CPU write on a state, and the image of the state after it, which the bytes hold (as in image_write). The blocks over the pages that it
// touches go. The steps are those of `write_on` of host_state round another call.
pub fn write_blocks_on(
    d: &mut [u64],
    s: KnownState,
    arena: &mut [u8],
    addr: u16,
    val: u8,
    image: &mut [u8],
) -> Result<Word, Refusal>
    requires { room_for (option_set s.state) (length image.old) ≡ true }
    ensures value { word_of result ≡ (write_blocks_on d.old s.state image.old arena.old addr val).word }
    ensures image_after { image.new
        ≡ (write_blocks_on d.old s.state image.old arena.old addr val).image }
    ensures arena_after { arena.new
        ≡ (write_blocks_on d.old s.state image.old arena.old addr val).lent }
    ensures d_after { d.new ≡ cpu_write_drops d.old s.state arena.old addr val }
{
    let written = cpu_write_known(d, s, arena, addr, val)?;
    put_image(image, written.state);
    Ok(changes_word(written.changed))
}

// The CPU pages that show the arena page of a byte; none for a byte behind the arena. `Sized` is asked as in memory/src/lib.rt.
fn stored_byte(m: Memory, offset: u64) -> u64
    requires { Sized m }
    ensures { result ≡ shown_by m.prg_pages (arena_byte m offset) }
{
    if offset < m.layout.arena_len() as u64 {
        shown_mask(m.prg_pages, offset as usize)
    } else {
        0
    }
}

// After a store of the host's own at a byte of the arena: the blocks over the pages that show its arena page go.
pub fn stored_on(d: &mut [u64], s: KnownState, offset: u64) -> Result<(), Refusal>
    ensures value { refusal_of result ≡ first_of (with_directory d.old []) }
    ensures d_after { d.new ≡ stored_drops d.old s.state offset }
{
    check_directory(d)?;
    drop_touched(d, stored_byte(s.state.memory, offset));
    Ok(())
}
