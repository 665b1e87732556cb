// The suspects of a group that fails.
ghost use Rattle.fit.specs.Promise.{Marks};

use crate::Frame;
use crate::fits::fit;
use sketch::Build;
use slices::Refusal;

// Each equation without which the rest converges. None has a number past the marks.
pub fn suspects(
    b: &Build,
    f: &Frame,
    p: &mut [f64],
    q: &mut [f64],
    r: &mut [f64],
) -> Result<[bool; 40], Refusal>
    ensures { Marks b.now f.now p.old q.old r.old p.new q.new r.new result }
{
    if (p.len() < 6400) | (q.len() < 6400) | (r.len() < 6400) {
        return Err(Refusal::TooShort);
    }
    let mut marks = [false; 40];
    for &k in f.equations.0.numbers() {
        let rest = members::without(&f.equations, k);
        let fitted = fit(b, f, &rest, p, q, r).is_ok();
        slices::put(&mut marks, k, fitted);
    }
    Ok(marks)
}
