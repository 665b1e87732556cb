// The largest residual magnitude of the equations.
ghost use Rattle.std.specs.Prelude.{◌≡◌};
ghost use Rattle.floats.specs.Largest.{max_abs_of};
ghost use Rattle.plate.specs.Inside.{larger_with};
ghost use Rattle.plate.specs.Worst.{residuals_of, worst_of};
ghost use Rattle.rows.specs.Located.{seen};

use crate::scale::{in_order, scaled};
use floats::larger_abs;
use rows::answer::Values;
use rows::{Located, ends_of};
use sketch::{Active, Build, Line};

// The larger of m and the residual magnitudes of an equation.
#[tactic(auto, using(rows::proofs::Given::given_by))]
fn larger_of(m: f64, a: &Active, lines: &[Line], points: Located<'_>) -> f64
    ensures { result ≡ larger_with lines.now (seen points.entry) m a.now }
{
    match rows::values(a.equation, ends_of(a.equation, lines), points) {
        Values::None => m,
        Values::One(v) => larger_abs(m, v),
        Values::Two(v, w) => larger_abs(larger_abs(m, v), w),
    }
}

fn largest(equations: &[Active], lines: &[Line], points: Located<'_>) -> f64
    ensures { result ≡ max_abs_of (residuals_of lines.now (seen points.entry) equations.now) }
{
    let mut m = 0.0;
    for a in equations {
        m = larger_of(m, a, lines, points);
    }
    m
}

// The largest residual magnitude of a build's equations at the points x, y, x, y, .., infinite where a residual is not finite.
#[tactic(auto, unfolding(crate::specs::Worst::worst_of))]
pub fn worst(b: &Build, points: &[f64]) -> f64
    ensures { result ≡ worst_of b.now points.now }
{
    let x = scaled(b.centre, b.size, points, b.point_count);
    let places = in_order();
    let here = Located {
        places: &places[..b.point_count.min(40)],
        x: &x,
    };
    largest(b.equations(), &b.lines, here)
}
