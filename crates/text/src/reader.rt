// The whole text, in document 01's order: its length, the form of the four count lines, the counts' bounds, the rest of the form.
ghost use Rattle.std.specs.Prelude.{◌≡◌, false};
ghost use Rattle.text.specs.Reader.{count_at, counts_at, over, rest_at, ended, read_of};

use crate::Counts;
use crate::items::items;
use phrases::vec;
use sketch::{Build, Ending};
use spelling::{eat, float, whole, word};

#[tactic(auto, unfolding(crate::specs::Reader::count_at))]
fn count(s: &[u8], at: usize, key: &[u8]) -> Result<(usize, usize), usize>
    ensures { result ≡ count_at s.now at key.now }
{
    let (n, at) = whole(s, word(s, at, key)?)?;
    Ok((n, eat(s, at, b'\n')?))
}

// The four count lines.
#[tactic(auto, unfolding(crate::specs::Reader::counts_at))]
fn counts(s: &[u8], at: usize) -> Result<(Counts, usize), usize>
    ensures { result ≡ counts_at s.now at }
{
    let (points, at) = count(s, at, b"points=")?;
    let (lines, at) = count(s, at, b"lines=")?;
    let (equations, at) = count(s, at, b"equations=")?;
    let (measures, at) = count(s, at, b"measures=")?;
    let n = Counts {
        points,
        lines,
        equations,
        measures,
    };
    Ok((n, at))
}

fn too_many(n: Counts) -> bool
    ensures { result ≡ over n }
{
    (n.points > 40) | (n.lines > 40) | (n.equations > 40) | (n.measures > 20)
}

// What comes after the counts, to the end of the text.
#[tactic(auto, unfolding(crate::specs::Reader::rest_at))]
fn rest(s: &[u8], at: usize, n: Counts) -> Result<Build, usize>
    requires { over n ≡ false }
    ensures { result ≡ ended s.now (rest_at n s.now at) }
{
    let (centre, at) = vec(s, word(s, at, b"centre=")?)?;
    let (size, at) = float(s, word(s, at, b"\nsize=")?)?;
    let at = eat(s, at, b'\n')?;
    let mut b = Build {
        centre,
        size,
        point_count: n.points,
        line_count: n.lines,
        equation_count: n.equations,
        measure_count: n.measures,
        ..Build::empty()
    };
    let at = items(s, at, n.points, &mut b.points)?;
    let at = items(s, at, n.lines, &mut b.lines)?;
    let at = items(s, at, n.equations, &mut b.equations)?;
    let at = items(s, at, n.measures, &mut b.measures)?;
    if at == s.len() { Ok(b) } else { Err(at) }
}

#[tactic(auto, unfolding(crate::specs::Reader::read_of))]
pub fn read(s: &[u8]) -> Result<Build, Ending>
    ensures { result ≡ read_of s.now }
{
    if s.len() > 16384 {
        return Err(Ending::TooLong);
    }
    let (n, at) = counts(s, 0).map_err(|_| Ending::BadForm)?;
    if too_many(n) {
        return Err(Ending::TooMany);
    }
    rest(s, at, n).map_err(|_| Ending::BadForm)
}
