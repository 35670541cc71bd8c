// Whole bytes in a slice: words of k bytes, most significant first, and copies. Here and in what calls these, a place stands beside the
// whole slice: what is said of a write is which bytes of all stay, so a part cut out by the caller would have to be put back in each proof.
ghost use Rattle.std.specs.Prelude.{◌+◌, ◌*◌, ◌%◌, ◌^◌, ◌<◌, ◌≤◌, ◌≡◌, length, take, drop};
ghost use Rattle.std.proofs.Math.Seq.{paste};
ghost use Rattle.bits.specs.Words.{word_of, bytes_of};

// The k low bits.
pub fn low(x: u64, k: usize) -> u64
    requires { k < 64 }
    ensures { result ≡ x % 2 ^ k }
{
    let m: u64 = 1 << k;
    x % m
}

// Stores the k low bytes of x, most significant first.
pub fn store(img: &mut [u8], at: usize, k: usize, x: u64)
    requires { (k ≤ 8) × (at + k ≤ length img.old) }
    ensures { img.new ≡ paste img.old at (bytes_of k x) k }
{
    copy_to(img, at, &x.to_be_bytes()[8 - k..]);
}

// The number acc with k bytes behind it.
pub fn load(img: &[u8], at: usize, k: usize, mut acc: u64) -> u64
    requires { (k ≤ 7) × (acc < 256) × (at + k ≤ length img.now) }
    ensures value { result ≡ acc * 2 ^ (k * 8) + word_of (take k (drop at img.now)) }
    ensures upper_bound { result < (acc + 1) * 2 ^ (k * 8) }
{
    for b in &img[at..at + k] {
        acc = acc * 256 + u64::from(*b);
    }
    acc
}

// Copies bytes to a place: one call of std's, by std's own definition of it, where `overlay` of memory_bytes has one that specs/ can cite.
pub fn copy_to(img: &mut [u8], at: usize, xs: &[u8])
    requires { at + length xs.now ≤ length img.old }
    ensures { img.new ≡ paste img.old at xs.now (length xs.now) }
{
    img[at..at + xs.len()].copy_from_slice(xs);
}

// Copies bytes from a place.
pub fn copy_from(img: &[u8], at: usize, xs: &mut [u8])
    requires { at + length xs.old ≤ length img.now }
    ensures { xs.new ≡ take (length xs.old) (drop at img.now) }
{
    xs.copy_from_slice(&img[at..at + xs.len()]);
}
