// Adler-32 of RFC 1950.
ghost use Rattle.std.specs.Prelude.{◌%◌, ◌<◌, ◌≡◌};
ghost use Rattle.replay_text.specs.Adler.{adler};

const MODULUS: u32 = 65_521;

// The remainder of a sum of two remainders, or of one and a byte. `%` makes the sum over an arena take twice as long.
fn reduced(sum: u32) -> u32
    requires { sum < 131042 }
    ensures { (result ≡ sum % 65521) × (result < 65521) }
{
    if sum < MODULUS { sum } else { sum - MODULUS }
}

pub fn adler32(bytes: &[u8]) -> u32
    ensures { result ≡ adler bytes.now }
{
    let mut low: u32 = 1;
    let mut high: u32 = 0;
    for &b in bytes {
        low = reduced(low + u32::from(b));
        high = reduced(high + low);
    }
    high * 65_536 + low
}
