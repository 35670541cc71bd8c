// Replays a list of calls from standard input, one a line, and writes an answer line for each.
#![tactic(auto)]

use crate::input::Lines;
use limits::ARENA_MOST;
use replay_player::player::{Player, Session};
use replay_text::out::Out;
use std::io;

mod input; // input.rt: lines of the input

// Lends the arrays as slices.
fn play<R: Input + Print>(
    rt: &R,
    arena: &mut [u8; ARENA_MOST],
    out: &mut [u8; 262_144],
    line: &mut [u8; 1_048_701],
    bytes: &mut [u8; 524_350],
) -> io::Result<()> {
    let session = Session::new(Player::new(), arena, Out::new(out));
    Lines::new(session, Out::new(line), bytes).play(rt)
}

fn main(rt: HostRuntime) -> io::Result<()> {
    // The largest arena (R4).
    let mut arena = [0u8; ARENA_MOST];
    // More than twice the longest answer, that of a run.
    let mut out = [0u8; 262_144];
    // The longest line, and one byte that tells a longer one.
    let mut line = [0u8; 1_048_701];
    // The bytes that a `fill` of the longest line names.
    let mut bytes = [0u8; 524_350];
    play(&rt, &mut arena, &mut out, &mut line, &mut bytes)
}
