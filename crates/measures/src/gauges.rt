// Each measure is its dimension's equation with the value 0, back in the build's size.
ghost use Rattle.std.specs.Prelude.{map, ◌≡◌};
ghost use Rattle.floats.specs.Lists.{copied_of};
ghost use Rattle.measures.specs.Gauges.{equation_of, gauge_of, measured_in};
ghost use Rattle.measures.specs.Inside.{first_of};

use plate::{in_order, scaled};
use rows::answer::Values;
use rows::{Located, ends_of};
use sketch::{Build, Equation, Line, Measure, Measured};

fn equation(m: Measure) -> Equation
    ensures { result ≡ equation_of m }
{
    match m {
        Measure::Distance(a, b) => Equation::Distance(a, b, 0.0),
        Measure::AxisDistance(a, b, axis, side) => Equation::AxisDistance(a, b, axis, 0.0, side),
        Measure::Length(l) => Equation::Length(l, 0.0),
        Measure::PointLine(p, l, side) => Equation::PointLine(p, l, 0.0, side),
        Measure::Radius(c, f) => Equation::Radius(c, f, 0.0),
    }
}

// The first residual: a dimension's equation has the one.
fn first(r: Values) -> f64
    ensures { result ≡ first_of r }
{
    match r {
        Values::None => 0.0,
        Values::One(v) | Values::Two(v, _) => v,
    }
}

fn gauge(m: &Measured, lines: &[Line], points: Located<'_>, size: f64) -> f64
    ensures { result ≡ gauge_of lines.now points.entry.places.now points.entry.x.now size m.now }
{
    let e = equation(m.measure);
    let r = rows::values(e, ends_of(e, lines), points);
    floats::handed_out(first(r) * size)
}

// As many of the measures as there is room for.
fn gauge_all(measures: &[Measured], lines: &[Line], points: Located<'_>, size: f64, out: &mut [f64])
    ensures { out.new ≡ copied_of (map (gauge_of lines.now points.entry.places.now points.entry.x.now size) measures.now) out.old }
{
    // By index: what is written through `zip` over `iter_mut` no proof knows afterwards.
    for i in 0..measures.len().min(out.len()) {
        out[i] = gauge(&measures[i], lines, points, size);
    }
}

// The measures of a build at the points x, y, x, y, .., one after another at the head of out.
#[tactic(auto, unfolding(crate::specs::Gauges::gauged_of, crate::specs::Gauges::measured_in))]
pub fn measures(b: &Build, points: &[f64], out: &mut [f64])
    ensures { out.new ≡ measured_in b.now points.now out.old }
{
    let x = scaled(b.centre, b.size, points, b.point_count);
    let places = in_order();
    let here = Located {
        places: &places[..b.point_count.min(40)],
        x: &x,
    };
    gauge_all(b.measures(), &b.lines, here, b.size, out);
}
