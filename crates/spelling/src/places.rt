// Places among the bytes: what stands at one, past a byte, and past a word.
ghost use Rattle.std.specs.Prelude.{◌≡◌};
ghost use Rattle.spelling.specs.Places.{byte_at, eat_of, word_of};

// The byte that stands there.
pub(crate) fn byte(s: &[u8], at: usize) -> Result<u8, usize>
    ensures { result ≡ byte_at s.now at }
{
    match s.get(at) {
        Some(b) => Ok(*b),
        None => Err(at),
    }
}

// Past the byte b, which has to stand there.
#[tactic(auto, unfolding(crate::specs::Places::eat_of))]
pub fn eat(s: &[u8], at: usize, b: u8) -> Result<usize, usize>
    ensures { result ≡ eat_of s.now at b }
{
    let found = byte(s, at)?;
    if found == b { Ok(at + 1) } else { Err(at) }
}

// Past the word w; where it does not stand there, the place of its first byte that is not there.
#[tactic(auto, unfolding(crate::specs::Places::word_of))]
pub fn word(s: &[u8], at: usize, w: &[u8]) -> Result<usize, usize>
    ensures { result ≡ word_of s.now at w.now }
{
    let mut next = at;
    for b in w {
        next = eat(s, next, *b)?;
    }
    Ok(next)
}
