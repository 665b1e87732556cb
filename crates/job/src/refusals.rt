// What a job ends in before its fit, in document 01's order: 3, 9, then the rest of the check.
ghost use Rattle.std.specs.Prelude.{◌≡◌, false};
ghost use Rattle.job.specs.Promise.{no_room, room_of, verdict_of};
ghost use Rattle.sketch.specs.Check.{over_bound};

use sketch::{Build, Ending, counts_over};

// 9: the output or an area is too short.
fn room(b: &Build, out: usize, p: usize, q: usize, r: usize) -> Result<(), Ending>
    requires { over_bound b.now ≡ false }
    ensures { result ≡ room_of (no_room b.now out p q r) }
{
    if (out < 2 * b.point_count + b.measure_count) | (p < 6400) | (q < 6400) | (r < 6400) {
        return Err(Ending::TooShort);
    }
    Ok(())
}

// The numbers are the lengths of what is lent.
#[tactic(auto, unfolding(crate::specs::Promise::verdict_of))]
pub(crate) fn verdict(b: &Build, out: usize, p: usize, q: usize, r: usize) -> Result<(), Ending>
    ensures { result ≡ verdict_of b.now out p q r }
{
    if counts_over(b) {
        return Err(Ending::TooMany);
    }
    room(b, out, p, q, r)?;
    sketch::check(b)
}
