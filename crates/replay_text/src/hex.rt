// Hexadecimal digits and pairs of them.
ghost use Rattle.std.specs.Prelude.{◌≤◌, ◌<◌, ◌≡◌, IfSome, length};
ghost use Rattle.replay_text.specs.Hex.{digit_of, glyph_of, pair_of, decoded_of, decoded_to};

// A digit's value in either case. Ranges, since `to_digit` of std is of a char and gives a u32, so both would be converted.
#[tactic(auto, unfolding(crate::specs::Hex::digit_of))]
pub fn digit(b: u8) -> Option<u8>
    ensures value { result ≡ digit_of b }
    ensures below { IfSome result (λ d. d < 16) }
{
    match b {
        b'0'..=b'9' => Some(b - b'0'),
        b'A'..=b'F' => Some(b - b'A' + 10),
        b'a'..=b'f' => Some(b - b'a' + 10),
        _ => None,
    }
}

// The upper case digit of a number below 16.
pub fn glyph(d: u8) -> u8
    requires { d < 16 }
    ensures { result ≡ glyph_of d }
{
    if d < 10 { b'0' + d } else { b'A' + (d - 10) }
}

// The byte that two digits name, the high one first.
fn pair(high: u8, low: u8) -> Option<u8>
    ensures { result ≡ pair_of high low }
{
    Some(16 * digit(high)? + digit(low)?)
}

// Puts the bytes that pairs of digits name at the start of a buffer, and answers how many they are.
pub fn decode(digits: &[u8], bytes: &mut [u8]) -> Option<usize>
    ensures value { result ≡ decoded_of digits.now bytes.old }
    ensures bytes_after { bytes.new ≡ decoded_to digits.now bytes.old }
    ensures within { IfSome result (λ n. n ≤ length bytes.old) }
{
    let n = digits.len() / 2;
    if digits.len() % 2 == 1 || bytes.len() < n {
        return None;
    }
    // By index: a byte goes by two digits, and what stands behind the last byte stays.
    for i in 0..n {
        bytes[i] = pair(digits[2 * i], digits[2 * i + 1])?;
    }
    Some(n)
}
