// The blocks that go: whether there is one, and a directory without them.
ghost use Rattle.std.specs.Prelude.{◌≡◌, ◌%◌, true, ◌==◌, IfSome};
ghost use Rattle.std.specs.List.{list_all};
ghost use Rattle.directory.specs.Fit.{any, sound};
ghost use Rattle.directory.specs.Drop.{gone, dropped};
ghost use Rattle.directory.specs.Eights.{seen_from, Decides};

use crate::block::Block;
use crate::pages::gone;

// Whether no block of eight places can go: a block has at most five pages. It decides nothing between them.
fn quiet(eight: &[u64; 8], touched: u64) -> bool
    ensures { result ≡ list_all (λ w. seen_from touched w % 32 == 0) eight.now }
{
    let seen = eight.iter().fold(
        0,
        |seen, w| seen | touched >> (Block::from(*w).start / 1024),
    );
    seen % 32 == 0
}

// The places behind the first eight, where no block of these can go. Where there are none the places are to be looked at one by one.
fn past_quiet(d: &[u64], touched: u64) -> Option<&[u64]>
    ensures { IfSome result (λ after. Decides touched d.now after.now) }
{
    let (eight, after) = d.split_first_chunk::<8>()?;
    quiet(eight, touched).then_some(after)
}

pub fn some_goes(d: &[u64], touched: u64) -> bool
    requires { sound d.now ≡ true }
    ensures { result ≡ any (gone touched) d.now }
{
    let mut rest = d;
    while let Some((w, tail)) = rest.split_first() {
        if let Some(after) = past_quiet(rest, touched) {
            rest = after;
        } else {
            if gone(touched, *w) {
                return true;
            }
            rest = tail;
        }
    }
    false
}

// Each block is taken out of its place, and put down behind those that stay if it stays too. By index: a place is read while one before it
// is written, and j counts only the blocks that stay, so that no `for` counts it.
pub fn take_out(d: &mut [u64], touched: u64)
    ensures { d.new ≡ dropped touched d.old }
{
    let mut j: usize = 0;
    for i in 0..d.len() {
        let w = d[i];
        d[i] = 0;
        if !gone(touched, w) {
            d[j] = w;
            j += 1;
        }
    }
}
