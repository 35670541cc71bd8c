// A run for the host: its samples into a buffer, and from there to the host's bytes (H7).
#![tactic(auto)]

ghost use Rattle.std.specs.Prelude.{◌≡◌, not, ◌++◌, ℕ, ◌+◌, ◌*◌, ◌/◌, ◌≤◌, ◌<◌, T, length, get_or, take, drop};
ghost use Rattle.std.specs.Float.{nan};
ghost use Rattle.std.specs.Float.Ieee.{is_nan};
ghost use Rattle.std.proofs.lemmas.List.Edits.{sets};
ghost use Rattle.bits.specs.Fields.{each};
ghost use Rattle.call_run.specs.Run.{run_answer, ran_of};
ghost use Rattle.host_samples.specs.Samples.{sample_bytes, run_in, HoldsRun};

use call_refusals::known::KnownState;
use call_run::run::{Ran, run_known};
use refusals::Refusal;

// One sample at a place of the bytes.
fn put_sample(bytes: &mut [u8], at: usize, x: f32)
    requires { (at + 4 ≤ length bytes.old) × T (not (is_nan x)) }
    ensures { bytes.new ≡ sets bytes.old at (sample_bytes x) }
{
    bytes[at..at + 4].copy_from_slice(&x.to_bits().to_be_bytes());
}

// The samples over the start of the bytes. By `chunks_exact_mut` and `zip` no proof closed: they say what a chunk holds as it is lent, and
// not what the bytes hold once it is written.
pub fn put_samples(samples: &[f32], bytes: &mut [u8])
    requires room { 4 * length samples.now ≤ length bytes.old }
    requires by_index { (j : ℕ) → j < length samples.now → T (not (is_nan (get_or samples.now j nan))) }
    ensures { bytes.new ≡ each sample_bytes samples.now ++ drop (4 * length samples.now) bytes.old }
{
    for (j, x) in samples.iter().enumerate() {
        put_sample(bytes, 4 * j, *x);
    }
}

// N11: a run with room for a sample in each 4 of so many bytes, into a buffer that holds all that it can make. `HoldsRun` ties three
// parameters, and the callers of `host_state` have the buffer: no type of one of them could say it.
pub fn run_into(s: KnownState, n: u64, bytes: usize, buf: &mut [f32]) -> Result<Ran, Refusal>
    requires { HoldsRun s.state n (length buf.old) }
    ensures { (run_answer s.state result ≡ ran_of (run_in s.state n (bytes / 4) buf.old))
        × (buf.new ≡ (run_in s.state n (bytes / 4) buf.old).samples) }
{
    let places = buf.len().min(bytes / 4);
    run_known(s, n, &mut buf[..places])
}
