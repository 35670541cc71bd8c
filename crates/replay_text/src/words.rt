// Words of a line, each behind one space.
ghost use Rattle.std.specs.Prelude.{◌+◌, ◌≤◌, ◌≡◌, length, drop, ◌==◌, position};
ghost use Rattle.replay_text.specs.Words.{spaces_in, behind, first_word, word_at};

pub fn spaces(line: &[u8]) -> usize
    ensures { result ≡ spaces_in line.now }
{
    line.iter().filter(|&&b| b == b' ').count()
}

// Where the first space stands.
fn first_space(line: &[u8]) -> Option<usize>
    ensures { result ≡ position (λ b. b == 32) line.now }
{
    line.iter().position(|&b| b == b' ')
}

// What stands behind the first space: nothing where there is none.
fn after_space(line: &[u8]) -> &[u8]
    ensures { result.now ≡ behind 1 line.now }
{
    match first_space(line) {
        Some(at) => &line[at + 1..],
        None => &[],
    }
}

// What stands behind the n-th space: nothing where there are fewer.
fn behind(line: &[u8], n: usize) -> &[u8]
    ensures { result.now ≡ behind n line.now }
{
    let mut rest = line;
    // So many times, with nothing to go over.
    for _ in 0..n {
        if rest.is_empty() {
            return rest;
        }
        rest = after_space(rest);
    }
    rest
}

fn first_word(line: &[u8]) -> &[u8]
    ensures { result.now ≡ first_word line.now }
{
    match first_space(line) {
        Some(at) => &line[..at],
        None => line,
    }
}

// The word behind the n-th space: an empty one where there are fewer.
pub fn word(line: &[u8], n: usize) -> &[u8]
    ensures { result.now ≡ word_at n line.now }
{
    first_word(behind(line, n))
}
