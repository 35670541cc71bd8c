// The host's calls on a state (H4): the answer's word (H6), and the image of the state after it. That the image has room for the state is
// asked of each: the image is lent by C, and a type that holds it and the state would have to borrow it from the read to the write.
#![tactic(auto)]

ghost use Rattle.std.specs.Prelude.{◌+◌, ◌*◌, ◌%◌, ◌^◌, ◌≤◌, ◌≡◌, true, length};
ghost use Rattle.board_state.specs.State.{Known};
ghost use Rattle.refusals.specs.Refusal.{refusal_of, word_of};
ghost use Rattle.image_write.specs.Options.{image_at, option_set, room_for};
ghost use Rattle.host_samples.specs.Samples.{HoldsRun};
ghost use Rattle.host_state.specs.HostState.{reset_on, read_on, write_on, run_on};

use board_state::State;
use call_cpu::calls::{after_read, cpu_peek_known, cpu_write_known};
use call_refusals::known::KnownState;
use call_reset::reset;
use call_run::run::SAMPLES_MOST;
use host_samples::{put_samples, run_into};
use image_write::writing::put_image;
use memory::changes::Changed;
use refusals::Refusal;
use refusals::word::Word;

// The most clocks of a short run.
const SHORT_RUN: u64 = 1_920;

// As many samples as a short run can make: an update each 15 clocks makes 128 of 1,920, from any update counter.
const SHORT_SAMPLES: usize = 128;

// H6: the CHR mask in bits 8..23, and the PRG mask where its own bits stand.
pub fn changes_word(changed: Changed) -> Word
    requires { changed.prg.mask % 2 ^ 24 ≡ 0 }
    ensures { result.bits ≡ changed.chr.mask * 2 ^ 8 + changed.prg.mask }
{
    Word {
        bits: (changed.chr.mask as u64) * 256 + changed.prg.mask,
    }
}

// A reset of a state, and its image.
pub fn reset_on(s: State, kind: u64, image: &mut [u8]) -> Result<(), Refusal>
    requires { room_for (option_set s) (length image.old) ≡ true }
    ensures value { refusal_of result ≡ (reset_on s image.old kind).word }
    ensures image_after { image.new ≡ (reset_on s image.old kind).image }
{
    let after = reset(s, kind)?;
    put_image(image, after);
    Ok(())
}

// A CPU read on the image's state, and the image of the state after it. Only the sound port at 4800..4FFF changes the state.
pub fn read_on(s: KnownState, arena: &[u8], addr: u16, image: &mut [u8]) -> Result<Word, Refusal>
    requires { (room_for (option_set s.state) (length image.old) ≡ true) × (image.old ≡ image_at (length image.old) s.state) }
    ensures value { word_of result ≡ (read_on s.state image.old arena.now addr).word }
    ensures image_after { image.new ≡ (read_on s.state image.old arena.now addr).image }
{
    let byte = cpu_peek_known(s, arena, addr)?;
    let word = Word {
        bits: (byte as u64) * 256,
    };
    if 0x5000 <= addr {
        return Ok(word);
    }
    put_image(image, after_read(s.state, addr));
    Ok(word)
}

// A CPU write on a state, and the image of the state after it.
pub fn write_on(
    s: KnownState,
    arena: &mut [u8],
    addr: u16,
    val: u8,
    image: &mut [u8],
) -> Result<Word, Refusal>
    requires { room_for (option_set s.state) (length image.old) ≡ true }
    ensures value { word_of result ≡ (write_on s.state image.old arena.old addr val).word }
    ensures image_after { image.new ≡ (write_on s.state image.old arena.old addr val).image }
    ensures arena_after { arena.new ≡ (write_on s.state image.old arena.old addr val).lent }
{
    let written = cpu_write_known(s, arena, addr, val)?;
    put_image(image, written.state);
    Ok(changes_word(written.changed))
}

// A run from a state by way of a buffer that holds what it makes, and the image of the state after it.
fn run_through(
    s: KnownState,
    n: u64,
    samples: &mut [u8],
    image: &mut [u8],
    buf: &mut [f32],
) -> Result<Word, Refusal>
    requires { (room_for (option_set s.state) (length image.old) ≡ true) × HoldsRun s.state n (length buf.old) }
    ensures value { word_of result ≡ (run_on s.state image.old samples.old n).word }
    ensures image_after { image.new ≡ (run_on s.state image.old samples.old n).image }
    ensures samples_after { samples.new ≡ (run_on s.state image.old samples.old n).lent }
{
    let ran = run_into(s, n, samples.len(), buf)?;
    put_samples(&buf[..ran.made], samples);
    put_image(image, ran.state);
    Ok(Word {
        bits: (ran.made as u64) * 256 + (ran.rise as u64) * 4_294_967_296,
    })
}

// The same, with a buffer of N places, so few that their bytes have a count.
fn run_with<const N: usize>(
    s: KnownState,
    n: u64,
    samples: &mut [u8],
    image: &mut [u8],
) -> Result<Word, Refusal>
    requires room { room_for (option_set s.state) (length image.old) ≡ true }
    requires buffer { HoldsRun s.state n N × (N ≤ 2 ^ 32) }
    ensures value { word_of result ≡ (run_on s.state image.old samples.old n).word }
    ensures image_after { image.new ≡ (run_on s.state image.old samples.old n).image }
    ensures samples_after { samples.new ≡ (run_on s.state image.old samples.old n).lent }
{
    let mut buf = [0.0f32; N];
    run_through(s, n, samples, image, &mut buf)
}

// A run from a state, and the image of the state after it. A short run has a small buffer, since a buffer is cleared first.
pub fn run_on(s: KnownState, n: u64, samples: &mut [u8], image: &mut [u8]) -> Result<Word, Refusal>
    requires { room_for (option_set s.state) (length image.old) ≡ true }
    ensures value { word_of result ≡ (run_on s.state image.old samples.old n).word }
    ensures image_after { image.new ≡ (run_on s.state image.old samples.old n).image }
    ensures samples_after { samples.new ≡ (run_on s.state image.old samples.old n).lent }
{
    if n <= SHORT_RUN {
        return run_with::<SHORT_SAMPLES>(s, n, samples, image);
    }
    run_with::<SAMPLES_MOST>(s, n, samples, image)
}
