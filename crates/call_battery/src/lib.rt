// The battery, C9: the sound RAM to its part of the arena, and back.
#![tactic(auto)]

ghost use Rattle.std.specs.Prelude.{◌+◌, ◌≤◌, ◌≡◌, length, take, drop};
ghost use Rattle.memory.specs.declared.layout.Src.TheVariants.{BatteryExt};
ghost use Rattle.memory_bytes.specs.Bytes.{overlay};
ghost use Rattle.memory.specs.Range.{Sized};
ghost use Rattle.memory.specs.Memory.{region_in};
ghost use Rattle.refusals.specs.Refusal.{refusal_of};
ghost use Rattle.call_answers.specs.Answers.{altered};
ghost use Rattle.call_refusals.specs.Refusals.{first_of, battery_checks};
ghost use Rattle.call_battery.specs.Battery.{sync_arena, restore_state};

use board_state::State;
use call_refusals::check_battery;
use memory::Memory;
use memory::layout::Src;
use refusals::Refusal;
use sound::audio::Audio;

// Where the battery's used bytes begin in the arena. `Sized` is asked as in memory/src/lib.rt.
fn battery_start(m: Memory) -> usize
    requires { Sized m }
    ensures { result ≡ (region_in m BatteryExt).start }
{
    m.region(Src::BatteryExt).start
}

// F6: copies the sound RAM over the 128 bytes of the arena from a place on. `fill` of memory_bytes would do it by the region, and asks that
// all pages lie in the arena and that the region is long enough, which would have to be shown for these 128 bytes.
fn put_battery(arena: &mut [u8], at: usize, ram: [u8; Audio::RAM_SIZE])
    requires { at + 128 ≤ length arena.old }
    ensures { arena.new ≡ overlay arena.old at ram }
{
    arena[at..at + Audio::RAM_SIZE].copy_from_slice(&ram);
}

// The 128 bytes from a place on, as `copy_from` of bits, which has no part in the board.
fn get_battery(arena: &[u8], at: usize) -> [u8; Audio::RAM_SIZE]
    requires { at + 128 ≤ length arena.now }
    ensures { result ≡ take 128 (drop at arena.now) }
{
    let mut ram = [0u8; Audio::RAM_SIZE];
    ram.copy_from_slice(&arena[at..at + Audio::RAM_SIZE]);
    ram
}

// C9: puts the sound RAM into the arena's battery part, which belongs behind PRG-RAM in a save file (M13). The chip reads that RAM several
// times for each sample and so keeps it; it is copied when a host saves.
pub fn sync_battery(s: State, arena: &mut [u8]) -> Result<(), Refusal>
    ensures { (refusal_of result ≡ first_of (battery_checks s (length arena.old)))
        × (arena.new ≡ sync_arena s arena.old) }
{
    check_battery(s, arena.len())?;
    put_battery(arena, battery_start(s.memory), s.chip.audio.ram);
    Ok(())
}

pub fn restore_battery(mut s: State, arena: &[u8]) -> Result<State, Refusal>
    ensures { altered s result ≡ restore_state s arena.now }
{
    check_battery(s, arena.len())?;
    s.chip.audio.ram = get_battery(arena, battery_start(s.memory));
    Ok(s)
}
