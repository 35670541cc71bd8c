// The CPU's calls: read and peek (L8), and write (L7, L15). State and arena stand side by side here and in the other calls: a read borrows
// the arena and a write changes it, so one struct of both would come in two forms, and each call twice.
ghost use Rattle.std.specs.Prelude.{◌≡◌};
ghost use Rattle.memory_bytes.specs.Bytes.{Backed};
ghost use Rattle.memory.specs.Range.{Sized};
ghost use Rattle.call_answers.specs.Answers.{peeked};
ghost use Rattle.call_cpu.specs.Calls.{cpu_byte, read_answer, state_after_read, cpu_read, cpu_peek, write_register, write_answer, cpu_write, cpu_write_arena};

use board_protection::{remap_banks, remaps_in};
use board_registers::writes;
use board_state::State;
use call_refusals::check_cpu_known;
use call_refusals::known::KnownState;
use memory::changes::{Changed, changes_between};
use memory_bytes::bytes;
use refusals::Refusal;

// What a read gives.
#[derive(Clone, Copy)]
pub struct ByteRead {
    pub byte: u8,
    pub state: State,
}

// What a write gives.
#[derive(Clone, Copy)]
pub struct Written {
    pub state: State,
    pub changed: Changed,
}

// L8: the byte at a CPU address: the board's own, or else the page's.
fn cpu_byte(s: State, arena: &[u8], addr: u16) -> u8
    requires { Backed s.memory arena.now }
    ensures { result ≡ cpu_byte s arena.now addr }
{
    match s.chip.prg_peek(addr) {
        Some(b) => b,
        None => bytes::prg_peek(s.memory, arena, addr),
    }
}

// This, `cpu_read_known` and `cpu_write_known` take a state whose range is known, as `check_arena_known` of call_refusals does. `cpu_peek`,
// `cpu_read` and `cpu_write` take any, test it and go on here.
pub fn cpu_peek_known(s: KnownState, arena: &[u8], addr: u16) -> Result<u8, Refusal>
    ensures { peeked result ≡ cpu_peek s.state arena.now addr }
{
    check_cpu_known(s, arena.len(), addr)?;
    Ok(cpu_byte(s.state, arena, addr))
}

pub fn cpu_peek(s: State, arena: &[u8], addr: u16) -> Result<u8, Refusal>
    ensures { peeked result ≡ cpu_peek s arena.now addr }
{
    cpu_peek_known(KnownState::new(s)?, arena, addr)
}

// L8, S10: the state after a read. Only the sound port at 4800..4FFF changes it.
pub fn after_read(s: State, addr: u16) -> State
    ensures { result ≡ state_after_read s addr }
{
    let chip = s.chip.after_read(addr);
    State { chip, ..s }
}

pub fn cpu_read_known(s: KnownState, arena: &[u8], addr: u16) -> Result<ByteRead, Refusal>
    ensures { read_answer s.state result ≡ cpu_read s.state arena.now addr }
{
    Ok(ByteRead {
        byte: cpu_peek_known(s, arena, addr)?,
        state: after_read(s.state, addr),
    })
}

pub fn cpu_read(s: State, arena: &[u8], addr: u16) -> Result<ByteRead, Refusal>
    ensures { read_answer s result ≡ cpu_read s arena.now addr }
{
    cpu_read_known(KnownState::new(s)?, arena, addr)
}

// L11, L21: the registers after a write, and the tables where they are mapped anew. `Sized` is asked as in memory/src/lib.rt.
pub fn write_register(s: State, addr: u16, val: u8) -> State
    requires { Sized s.memory }
    ensures { result ≡ write_register s addr val }
{
    let chip = writes::write_register(s.chip, addr, val);
    if remaps_in(s.f800_protects, s.chip.board, chip.board, addr) {
        let memory = remap_banks(s.f800_protects, chip, s.memory);
        return State { chip, memory, ..s };
    }
    State { chip, ..s }
}

pub fn cpu_write_known(
    s: KnownState,
    arena: &mut [u8],
    addr: u16,
    val: u8,
) -> Result<Written, Refusal>
    ensures { (write_answer s.state result ≡ cpu_write s.state arena.old addr val)
        × (arena.new ≡ cpu_write_arena s.state arena.old addr val) }
{
    check_cpu_known(s, arena.len(), addr)?;
    bytes::prg_write(s.state.memory, arena, addr, val);
    let state = write_register(s.state, addr, val);
    let changed = changes_between(&s.state.memory, &state.memory);
    Ok(Written { state, changed })
}

pub fn cpu_write(s: State, arena: &mut [u8], addr: u16, val: u8) -> Result<Written, Refusal>
    ensures { (write_answer s result ≡ cpu_write s arena.old addr val)
        × (arena.new ≡ cpu_write_arena s arena.old addr val) }
{
    cpu_write_known(KnownState::new(s)?, arena, addr, val)
}
