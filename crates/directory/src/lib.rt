// A directory of translated blocks: 256 places that the host lends.
#![tactic(auto)]

pub mod block;
mod drops;
pub mod fitness;
mod marks;
mod order;
mod pages;
mod places;

ghost use Rattle.std.specs.Prelude.{◌≡◌, true, IfOk, IfSome};
ghost use Rattle.refusals.specs.Refusal.{refusal_of};
ghost use Rattle.directory.specs.Fit.{fit};
ghost use Rattle.directory.specs.Calls.{checked, register_refusal, registered, word_at, lookup_answer, lookup};
ghost use Rattle.directory.specs.Drop.{dropped};

use crate::block::{Block, holds};
use crate::drops::{some_goes, take_out};
use crate::fitness::check_directory;
use crate::places::{free_place, near, place_of, put};
use refusals::Refusal;

// What both calls refuse: an unfit directory, and a start below 4800.
fn checked(d: &[u64], start: u16) -> Result<(), Refusal>
    ensures { result ≡ checked d.now start }
{
    check_directory(d)?;
    if start < 0x4800 {
        return Err(Refusal::Address);
    }
    Ok(())
}

// K3: registers a block. Refused where the directory is unfit, the start is below 4800, the block cannot be registered, or no place is
// free.
pub fn register(d: &mut [u64], start: u16, len: u64, number: u32) -> Result<(), Refusal>
    ensures value { refusal_of result ≡ register_refusal d.old start len }
    ensures d_after { d.new ≡ registered d.old start len number }
{
    checked(d, start)?;
    let block = Block::registrable(start, len, number).ok_or(Refusal::Block)?;
    let word = u64::from(block);
    if let Some(place) = place_of(d, start) {
        d[place] = word;
        return Ok(());
    }
    free_place(d).ok_or(Refusal::Full)?;
    put(d, word);
    Ok(())
}

// The word of the first place that holds a start. A place is a word of the host's, 0 where it is free: so 0 is none here too, as the C call
// answers it. It tests nothing: of a fit directory it finds what a lookup does (lookup-finds), and nothing below 6000 (low-none), where a
// lookup below 4800 is refused.
pub fn find(d: &[u64], start: u16) -> u64
    ensures { result ≡ word_at start d.now }
{
    near(d, start)
        .iter()
        .find(|w| holds(start, **w))
        .copied()
        .unwrap_or(0)
}

// The block that is held at a start.
pub fn lookup(d: &[u64], start: u16) -> Result<Option<Block>, Refusal>
    ensures value { lookup_answer result ≡ lookup d.now start }
    ensures at_start { IfOk result (λ found. IfSome found (λ block. block.start ≡ start)) }
{
    checked(d, start)?;
    let w = find(d, start);
    Ok((w != 0).then_some(Block::from(w)))
}

// Takes out each block over a CPU page whose bit is set.
pub fn drop_touched(d: &mut [u64], touched: u64)
    requires { fit d.old ≡ true }
    ensures { d.new ≡ dropped touched d.old }
{
    if touched != 0 && some_goes(d, touched) {
        take_out(d, touched);
    }
}
