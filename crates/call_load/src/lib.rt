// Load: a cartridge's numbers to a fresh state (L1 to L5), and the arena to zeros (R5).
#![tactic(auto)]

ghost use Rattle.std.specs.Prelude.{◌^◌, ◌<◌, ◌≡◌, true, length};
ghost use Rattle.memory.specs.Layout.{within_limits};
ghost use Rattle.call_load.specs.Cartridge.{chosen, memory_at_load, fresh_state, loaded, load_answer, load_arena, LoadFits};

use board_chip::namco163::Namco163;
use board_protection::remap_banks;
use board_state::{Options, State};
use call_refusals::check_load;
use memory::Memory;
use memory::layout::MemoryLayout;
use memory_map::new::new_memory;
use refusals::Refusal;
use sound::audio::Audio;

// What a load is given.
#[derive(Clone, Copy)]
pub struct Cartridge {
    pub mapper: u64,
    pub submapper: u8,
    pub flags: u8,
    // Whether the game database has an entry.
    pub known: bool,
    pub sizes: MemoryLayout,
    pub options: Options,
}

// L5: only the 163 has the sound chip, and so the sound RAM that the battery covers; mapper 210 uses nothing of a reserve.
fn memory_at_load(mapper: u64, sizes: MemoryLayout) -> Memory
    requires { within_limits sizes ≡ true }
    ensures { result ≡ memory_at_load mapper sizes }
{
    let battery_ext_len = if mapper == 19 { Audio::RAM_SIZE } else { 0 };
    Memory {
        battery_ext_len,
        ..new_memory(sizes)
    }
}

// S13: the board with the sound's choices of a load.
fn chosen(mut chip: Namco163, options: Options) -> Namco163
    ensures { result ≡ chosen chip options }
{
    chip.audio.signed_levels = options.signed_levels;
    chip.audio.plain_sum = options.plain_sum;
    chip
}

// L1, L2: of a mapper that is 19 or 210, and sizes that a load accepts.
fn fresh_state(cartridge: Cartridge) -> State
    requires { (cartridge.mapper < 2 ^ 16) × LoadFits cartridge.mapper cartridge.sizes }
    ensures { result ≡ fresh_state cartridge.mapper cartridge.submapper cartridge.flags cartridge.known cartridge.sizes cartridge.options }
{
    let Cartridge {
        mapper,
        submapper,
        flags,
        known,
        sizes,
        options,
    } = cartridge;
    let board = Namco163::load(mapper as u16, submapper, flags, known);
    let chip = chosen(board, options);
    let fresh = memory_at_load(mapper, sizes);
    State {
        chip,
        memory: remap_banks(options.f800_protects, chip, fresh),
        f800_protects: options.f800_protects,
    }
}

pub fn load(arena: &mut [u8], cartridge: Cartridge) -> Result<State, Refusal>
    ensures { (loaded result ≡ load_answer cartridge.mapper cartridge.submapper cartridge.flags cartridge.known cartridge.sizes
        cartridge.options (length arena.old)) × (arena.new ≡ load_arena cartridge.mapper cartridge.sizes arena.old) }
{
    check_load(cartridge.mapper, cartridge.sizes, arena.len())?;
    arena.fill(0);
    Ok(fresh_state(cartridge))
}
