// The blocks of a directory.
use crate::answers::{answer, end_line, spaced, spaced_hex32};
use directory::block::Block;
use refusals::Refusal;
use replay_text::out::Out;

// A block's length and number.
fn extent(out: &mut Out, block: Block) {
    spaced(out, u64::from(block.len));
    spaced_hex32(out, block.number);
}

// What a lookup found.
pub fn found(out: &mut Out, given: Result<Option<Block>, Refusal>) {
    answer(out, given, |out, found| match found {
        Some(block) => extent(out, block),
        None => out.put_all(b" none"),
    });
}

// The held places, in their order: how many, and the block of each.
pub fn directory(out: &mut Out, places: &[u64]) {
    let held = places.iter().filter(|&&place| place != 0).count();
    out.put_all(b"ok");
    spaced(out, held as u64);
    for &place in places.iter().filter(|&&place| place != 0) {
        let block = Block::from(place);
        out.put_all(b" $");
        out.put_hex16(block.start);
        extent(out, block);
    }
    end_line(out);
}
