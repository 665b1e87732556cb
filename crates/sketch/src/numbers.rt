// The bounds of a build's numbers, item by item.
ghost use Rattle.std.specs.Prelude.{◌≡◌};
ghost use Rattle.loops.specs.Turns.{every};
ghost use Rattle.sketch.specs.Numbers.{bounded, sized, is_side, bounded_vec, bounded_state, bounded_point, bounded_rad, bounded_contact, bounded_equation, bounded_active, bounded_measure, bounded_measured};

use crate::{Active, Contact, Equation, Measure, Measured, Point, Rad, State};
use plane::Vec2;

fn is_bounded(x: f64) -> bool
    ensures { result ≡ bounded x }
{
    (-1000000.0 <= x) & (x <= 1000000.0)
}

pub(crate) fn is_sized(x: f64) -> bool
    ensures { result ≡ sized x }
{
    (0.0009765625 <= x) & (x <= 1000000.0)
}

fn is_side(s: f64) -> bool
    ensures { result ≡ is_side s }
{
    (s == 1.0) | (s == -1.0)
}

pub(crate) fn vec_bounded(p: Vec2) -> bool
    ensures { result ≡ bounded_vec p }
{
    is_bounded(p.x) & is_bounded(p.y)
}

fn state_bounded(s: State) -> bool
    ensures { result ≡ bounded_state s }
{
    match s {
        State::Free => true,
        State::Kept => true,
        State::Placed(p) => vec_bounded(p),
    }
}

fn point_bounded(p: Point) -> bool
    ensures { result ≡ bounded_point p }
{
    vec_bounded(p.start) & state_bounded(p.state)
}

fn rad_bounded(r: Rad) -> bool
    ensures { result ≡ bounded_rad r }
{
    match r {
        Rad::Point(_) => true,
        Rad::Value(v) => is_bounded(v),
    }
}

fn contact_bounded(c: Contact) -> bool
    ensures { result ≡ bounded_contact c }
{
    match c {
        Contact::Outside => true,
        Contact::Inside(s) => is_side(s),
    }
}

fn equation_bounded(e: Equation) -> bool
    ensures { result ≡ bounded_equation e }
{
    match e {
        Equation::Coincident(_, _) => true,
        Equation::Level(_, _, axis) => axis < 2,
        Equation::Parallel(_, _) => true,
        Equation::Perpendicular(_, _) => true,
        Equation::Collinear(_, _) => true,
        Equation::Equal(_, _) => true,
        Equation::Held => true,
        Equation::Distance(_, _, value) => is_bounded(value),
        Equation::AxisDistance(_, _, axis, value, side) => (axis < 2)
            & is_bounded(value)
            & is_side(side),
        Equation::Length(_, value) => is_bounded(value),
        Equation::PointLine(_, _, value, side) => is_bounded(value) & is_side(side),
        Equation::ArcEnds(_, _, _) => true,
        Equation::Radius(_, _, value) => is_bounded(value),
        Equation::LineCircle(_, _, rad, side) => rad_bounded(rad) & is_side(side),
        Equation::CircleCircle(_, r1, _, r2, contact) => rad_bounded(r1)
            & rad_bounded(r2)
            & contact_bounded(contact),
        Equation::LineArcAt(_, _, _) => true,
        Equation::ArcArcAt(_, _, _) => true,
        Equation::Midpoint(_, _) => true,
        Equation::ArcMidpoint(_, _, _, _) => true,
        Equation::Symmetric(_, _, _) => true,
        Equation::EqualRadius(_, _, _, _) => true,
    }
}

fn measure_bounded(m: Measure) -> bool
    ensures { result ≡ bounded_measure m }
{
    match m {
        Measure::Distance(_, _) => true,
        Measure::AxisDistance(_, _, axis, side) => (axis < 2) & is_side(side),
        Measure::Length(_) => true,
        Measure::PointLine(_, _, side) => is_side(side),
        Measure::Radius(_, _) => true,
    }
}

pub(crate) fn points_bounded(points: &[Point]) -> bool
    ensures { result ≡ every bounded_point points.now }
{
    points.iter().all(|p| point_bounded(*p))
}

pub(crate) fn equations_bounded(equations: &[Active]) -> bool
    ensures { result ≡ every bounded_active equations.now }
{
    equations.iter().all(|a| equation_bounded(a.equation))
}

pub(crate) fn measures_bounded(measures: &[Measured]) -> bool
    ensures { result ≡ every bounded_measured measures.now }
{
    measures.iter().all(|a| measure_bounded(a.measure))
}
