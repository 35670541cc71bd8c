// Whether starts ascend and free places are behind them: a directory that is in this order is fit.
ghost use Rattle.std.specs.Prelude.{◌≡◌, ◌≤◌, IfSome};
ghost use Rattle.directory.specs.Ordered.{all_free, rises, ordered};
ghost use Rattle.directory.specs.Eights.{Climbs, Climbed};

use crate::block::Block;

// Whether a place holds a block that can be registered, with a start above s.
#[tactic(auto, unfolding(crate::specs::Ordered::rises))]
fn rises(s: u16, w: u64) -> bool
    ensures { result ≡ rises s w }
{
    let block = Block::from(w);
    s < block.start && block.fits()
}

// The last start of eight places that are in order above s. It decides nothing between them: where there is none they are to be looked at
// one by one.
fn climb(eight: &[u64; 8], s: u16) -> Option<u16>
    requires { 0x5FFF ≤ s }
    ensures { IfSome result (λ b. Climbs s eight.now b) }
{
    let mut up = true;
    let mut last = s;
    // no less than a length less one; large where a length is 0
    let mut far = 0;
    for w in eight {
        let block = Block::from(*w);
        up &= last < block.start;
        last = block.start;
        far |= u64::from(block.len).wrapping_sub(1);
    }
    (up & (far < 4096) & (far < 0x1_0000 - u64::from(last))).then_some(last)
}

// The same of a directory's first eight places, and those behind them.
fn climb_on(d: &[u64], s: u16) -> Option<(u16, &[u64])>
    requires { 0x5FFF ≤ s }
    ensures { IfSome result (λ p. Climbed s d.now p.0 p.1.now) }
{
    let (eight, after) = d.split_first_chunk::<8>()?;
    Some((climb(eight, s)?, after))
}

fn all_free(d: &[u64]) -> bool
    ensures { result ≡ all_free d.now }
{
    d.iter().fold(0, |found, w| found | w) == 0
}

pub fn ordered(d: &[u64]) -> bool
    ensures { result ≡ ordered 0x5FFF d.now }
{
    let mut s: u16 = 0x5FFF;
    let mut rest = d;
    while let Some((w, tail)) = rest.split_first() {
        if let Some((last, after)) = climb_on(rest, s) {
            s = last;
            rest = after;
        } else {
            if !rises(s, *w) {
                return all_free(rest);
            }
            s = Block::from(*w).start;
            rest = tail;
        }
    }
    true
}
