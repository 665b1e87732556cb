// The lines of the items: a key, what it holds, and a newline.
ghost use Rattle.std.specs.Prelude.{◌≡◌};
ghost use Rattle.text.specs.Lines.{state_at, point_line, line_line, equation_line, measure_line};

use crate::items::Item;
use phrases::{equation, measure, number, vec};
use sketch::{Active, Line, Measured, Point, PointNo, State};
use spelling::{eat, whole, word};

#[tactic(auto, unfolding(crate::specs::Lines::state_at))]
fn state(s: &[u8], at: usize) -> Result<(State, usize), usize>
    ensures { result ≡ state_at s.now at }
{
    if let Ok(at) = word(s, at, b",free") {
        return Ok((State::Free, at));
    }
    if let Ok(at) = word(s, at, b",kept") {
        return Ok((State::Kept, at));
    }
    let (place, at) = vec(s, word(s, at, b",at,")?)?;
    Ok((State::Placed(place), at))
}

impl Item for Point {
    ghost reads = { point_line };

    #[tactic(auto, unfolding(crate::specs::Lines::point_line))]
    fn line(s: &[u8], at: usize) -> Result<(Point, usize), usize> {
        let (start, at) = vec(s, word(s, at, b"p=")?)?;
        let (state, at) = state(s, at)?;
        Ok((Point { start, state }, eat(s, at, b'\n')?))
    }
}

impl Item for Line {
    ghost reads = { line_line };

    #[tactic(auto, unfolding(crate::specs::Lines::line_line))]
    fn line(s: &[u8], at: usize) -> Result<(Line, usize), usize> {
        let (from, at) = whole(s, word(s, at, b"l=")?)?;
        let (to, at) = number(s, at)?;
        let line = Line {
            from: PointNo(from),
            to: PointNo(to),
        };
        Ok((line, eat(s, at, b'\n')?))
    }
}

impl Item for Active {
    ghost reads = { equation_line };

    #[tactic(auto, unfolding(crate::specs::Lines::equation_line))]
    fn line(s: &[u8], at: usize) -> Result<(Active, usize), usize> {
        let (equation, at) = equation(s, word(s, at, b"e=")?)?;
        Ok((Active { equation }, eat(s, at, b'\n')?))
    }
}

impl Item for Measured {
    ghost reads = { measure_line };

    #[tactic(auto, unfolding(crate::specs::Lines::measure_line))]
    fn line(s: &[u8], at: usize) -> Result<(Measured, usize), usize> {
        let (measure, at) = measure(s, word(s, at, b"m=")?)?;
        Ok((Measured { measure }, eat(s, at, b'\n')?))
    }
}
