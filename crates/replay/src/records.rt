// Where the records of a pack lie. A record is a line `LENGTH REPLYLENGTH`, so many bytes of text, so many bytes of reply.
ghost use Rattle.std.specs.Prelude.{◌≡◌};
ghost use Rattle.replay.specs.Records.{placed, record_at};

use spelling::{eat, whole};

// The text is from `text` up to `reply`, the reply from there up to `end`.
#[derive(Clone, Copy)]
pub struct Record {
    pub text: usize,
    pub reply: usize,
    pub end: usize,
}

// The record whose bytes start at `at`, where there are so many.
#[tactic(auto, unfolding(crate::specs::Records::placed))]
fn place(len: usize, at: usize, n: usize, m: usize) -> Option<Record>
    ensures { result ≡ placed len at n m }
{
    let reply = at.checked_add(n)?;
    let end = reply.checked_add(m)?;
    if end <= len {
        Some(Record {
            text: at,
            reply,
            end,
        })
    } else {
        None
    }
}

// The record that starts at `at`, or the place at which there is none.
#[tactic(auto, unfolding(crate::specs::Records::record_at))]
pub(crate) fn record_at(s: &[u8], at: usize) -> Result<Record, usize>
    ensures { result ≡ record_at s.now at }
{
    let (n, at) = whole(s, at)?;
    let (m, at) = whole(s, eat(s, at, b' ')?)?;
    let at = eat(s, at, b'\n')?;
    place(s.len(), at, n, m).ok_or(at)
}
