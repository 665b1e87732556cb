// Whole numbers: one to five digits, and no zero in front of others.
ghost use Rattle.std.specs.Prelude.{◌≡◌, ◌<◌, IfSome, IfOk};
ghost use Rattle.spelling.specs.Wholes.{digit_of, digit_at, more_of, whole_at};

use crate::places::byte;

// What a decimal digit stands for.
#[tactic(auto, unfolding(crate::specs::Wholes::digit_of))]
fn digit_of(b: u8) -> Option<usize>
    ensures value { result ≡ digit_of b }
    ensures small { IfSome result (λ d. d < 10) }
{
    match b {
        b'0'..=b'9' => Some(usize::from(b - b'0')),
        _ => None,
    }
}

// The digit that stands there.
#[tactic(auto, unfolding(crate::specs::Wholes::digit_at))]
fn digit(s: &[u8], at: usize) -> Result<(usize, usize), usize>
    ensures value { result ≡ digit_at s.now at }
    ensures small { IfOk result (λ r. r.0 < 10) }
{
    Ok((digit_of(byte(s, at)?).ok_or(at)?, at + 1))
}

// One digit more, where one stands there. Nothing goes on from 0, nor from five digits.
#[tactic(auto, unfolding(crate::specs::Wholes::more_of))]
fn more(s: &[u8], value: usize, at: usize) -> (usize, usize)
    ensures { result ≡ more_of s.now (value, at) }
{
    match digit(s, at) {
        Ok((d, next)) if (1 <= value) & (value <= 9999) => (10 * value + d, next),
        _ => (value, at),
    }
}

// A whole number, and the place after it; where no digit stands there, that place.
#[tactic(auto, unfolding(crate::specs::Wholes::whole_at))]
pub fn whole(s: &[u8], at: usize) -> Result<(usize, usize), usize>
    ensures { result ≡ whole_at s.now at }
{
    let mut n = digit(s, at)?;
    for _i in 0..4usize {
        n = more(s, n.0, n.1);
    }
    Ok(n)
}
