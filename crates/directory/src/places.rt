// Where a directory holds what.
ghost use Rattle.std.specs.Prelude.{◌≡◌, ◌==◌, position};
ghost use Rattle.directory.specs.Block.{start_of, free, holds};
ghost use Rattle.directory.specs.Fit.{any};
ghost use Rattle.directory.specs.Calls.{put, word_at};

use crate::block::{Block, holds};

// The first place that holds a start.
pub fn place_of(d: &[u64], start: u16) -> Option<usize>
    ensures { result ≡ position (holds start) d.now }
{
    d.iter().position(|w| holds(start, *w))
}

// The first free place.
pub fn free_place(d: &[u64]) -> Option<usize>
    ensures { result ≡ position free d.now }
{
    d.iter().position(|w| *w == 0)
}

// Puts a block where its start belongs. Each with a higher start moves up by a place, to the first free one.
pub fn put(d: &mut [u64], word: u64)
    ensures { d.new ≡ put word d.old }
{
    let mut carried = word;
    for place in d.iter_mut() {
        let w = *place;
        if w == 0 {
            *place = carried;
            return;
        }
        *place = carried.min(w);
        carried = carried.max(w);
    }
}

// Whether one of eight places has a start, held or not. It decides nothing between them.
fn start_among(start: u16, eight: &[u64; 8]) -> bool
    ensures { result ≡ any (λ w. start_of w == start) eight.now }
{
    let mut found = false;
    for w in eight {
        found |= Block::from(*w).start == start;
    }
    found
}

// The places from the first eight on that may hold a start; none before holds it.
pub fn near(d: &[u64], start: u16) -> &[u64]
    ensures { word_at start result.now ≡ word_at start d.now }
{
    let mut rest = d;
    while let Some((eight, after)) = rest.split_first_chunk::<8>() {
        if start_among(start, eight) {
            return rest;
        }
        rest = after;
    }
    rest
}
