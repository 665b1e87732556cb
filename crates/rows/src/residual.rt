// The residuals of one equation, kind by kind.
ghost use Rattle.std.specs.Prelude.{◌≡◌};
ghost use Rattle.rows.specs.Entries.{values_of};
ghost use Rattle.rows.specs.Ends.{rows_given};
ghost use Rattle.rows.specs.Kinds.{radius_of, coincident_of, level_kind_of, parallel_of, perpendicular_of, collinear_of, equal_of, distance_of, axis_distance_of, length_of, point_line_of, arc_ends_of, radius_kind_of, line_circle_of, circle_circle_of, line_arc_at_of, arc_arc_at_of, midpoint_of, arc_midpoint_of, symmetric_of, equal_radius_of};
ghost use Rattle.rows.specs.Located.{seen};

use crate::answer::Values;
use crate::vectors::{along_axis, first_sign, second_sign};
use crate::{Ends, Located};
use sketch::{Contact, Equation, Line, PointNo, Rad};

// The radius of a circle around c.
fn radius_of(points: Located<'_>, rad: Rad, c: PointNo) -> f64
    ensures { result ≡ radius_of (seen points.entry) rad c }
{
    match rad {
        Rad::Point(p) => points.apart(c, p),
        Rad::Value(v) => v,
    }
}

fn coincident(points: Located<'_>, a: PointNo, b: PointNo) -> Values
    ensures { result ≡ values_of (coincident_of (seen points.entry) a b) }
{
    let pa = points.at(a);
    let pb = points.at(b);
    Values::Two(pa.x - pb.x, pa.y - pb.y)
}

fn level(points: Located<'_>, a: PointNo, b: PointNo, axis: usize) -> Values
    ensures { result ≡ values_of (level_kind_of (seen points.entry) a b axis) }
{
    Values::One(along_axis(axis, points.at(b)) - along_axis(axis, points.at(a)))
}

fn parallel(points: Located<'_>, i: Line, j: Line) -> Values
    ensures { result ≡ values_of (parallel_of (seen points.entry) i j) }
{
    let di = points.dir(i);
    let dj = points.dir(j);
    Values::One(plane::cross(di.u, dj.u))
}

fn perpendicular(points: Located<'_>, i: Line, j: Line) -> Values
    ensures { result ≡ values_of (perpendicular_of (seen points.entry) i j) }
{
    let di = points.dir(i);
    let dj = points.dir(j);
    Values::One(plane::dot(di.u, dj.u))
}

fn collinear(points: Located<'_>, i: Line, j: Line) -> Values
    ensures { result ≡ values_of (collinear_of (seen points.entry) i j) }
{
    let di = points.dir(i);
    let dj = points.dir(j);
    let q = points.offset(i.from, j.from);
    Values::Two(plane::cross(di.u, dj.u), plane::cross(di.u, q))
}

fn equal(points: Located<'_>, i: Line, j: Line) -> Values
    ensures { result ≡ values_of (equal_of (seen points.entry) i j) }
{
    let di = points.dir(i);
    let dj = points.dir(j);
    Values::One(di.len - dj.len)
}

fn distance(points: Located<'_>, a: PointNo, b: PointNo, value: f64) -> Values
    ensures { result ≡ values_of (distance_of (seen points.entry) a b value) }
{
    Values::One(points.apart(a, b) - value)
}

fn axis_distance(
    points: Located<'_>,
    a: PointNo,
    b: PointNo,
    axis: usize,
    value: f64,
    side: f64,
) -> Values
    ensures { result ≡ values_of (axis_distance_of (seen points.entry) a b axis value side) }
{
    Values::One(side * (along_axis(axis, points.at(b)) - along_axis(axis, points.at(a))) - value)
}

fn length(points: Located<'_>, l: Line, value: f64) -> Values
    ensures { result ≡ values_of (length_of (seen points.entry) l value) }
{
    let d = points.dir(l);
    Values::One(d.len - value)
}

fn point_line(points: Located<'_>, p: PointNo, l: Line, value: f64, side: f64) -> Values
    ensures { result ≡ values_of (point_line_of (seen points.entry) p l value side) }
{
    let d = points.dir(l);
    let q = points.offset(l.from, p);
    Values::One(side * plane::cross(d.u, q) - value)
}

fn arc_ends(points: Located<'_>, c: PointNo, f: PointNo, t: PointNo) -> Values
    ensures { result ≡ values_of (arc_ends_of (seen points.entry) c f t) }
{
    Values::One(points.apart(c, f) - points.apart(c, t))
}

fn radius(points: Located<'_>, c: PointNo, f: PointNo, value: f64) -> Values
    ensures { result ≡ values_of (radius_kind_of (seen points.entry) c f value) }
{
    Values::One(points.apart(c, f) - value)
}

fn line_circle(points: Located<'_>, l: Line, c: PointNo, rad: Rad, side: f64) -> Values
    ensures { result ≡ values_of (line_circle_of (seen points.entry) l c rad side) }
{
    let d = points.dir(l);
    let q = points.offset(l.from, c);
    Values::One(side * plane::cross(d.u, q) - radius_of(points, rad, c))
}

fn circle_circle(
    points: Located<'_>,
    c1: PointNo,
    r1: Rad,
    c2: PointNo,
    r2: Rad,
    contact: Contact,
) -> Values
    ensures { result ≡ values_of (circle_circle_of (seen points.entry) c1 r1 c2 r2 contact) }
{
    let dist = points.apart(c1, c2);
    let a = radius_of(points, r1, c1);
    let b = radius_of(points, r2, c2);
    Values::One(dist + first_sign(contact) * a + second_sign(contact) * b)
}

fn line_arc_at(points: Located<'_>, l: Line, c: PointNo, p: PointNo) -> Values
    ensures { result ≡ values_of (line_arc_at_of (seen points.entry) l c p) }
{
    let d = points.dir(l);
    let w = points.unit_from(c, p);
    Values::One(plane::dot(d.u, w.u))
}

fn arc_arc_at(points: Located<'_>, c1: PointNo, c2: PointNo, p: PointNo) -> Values
    ensures { result ≡ values_of (arc_arc_at_of (seen points.entry) c1 c2 p) }
{
    let w1 = points.unit_from(c1, p);
    let w2 = points.unit_from(c2, p);
    Values::One(plane::cross(w1.u, w2.u))
}

fn midpoint(points: Located<'_>, p: PointNo, l: Line) -> Values
    ensures { result ≡ values_of (midpoint_of (seen points.entry) p l) }
{
    let pp = points.at(p);
    let pa = points.at(l.from);
    let pb = points.at(l.to);
    Values::Two(pp.x - 0.5 * (pa.x + pb.x), pp.y - 0.5 * (pa.y + pb.y))
}

fn arc_midpoint(points: Located<'_>, p: PointNo, c: PointNo, f: PointNo, t: PointNo) -> Values
    ensures { result ≡ values_of (arc_midpoint_of (seen points.entry) p c f t) }
{
    Values::Two(
        points.apart(c, f) - points.apart(c, p),
        points.apart(f, p) - points.apart(t, p),
    )
}

fn symmetric(points: Located<'_>, p: PointNo, q: PointNo, l: Line) -> Values
    ensures { result ≡ values_of (symmetric_of (seen points.entry) p q l) }
{
    let d = points.dir(l);
    let m = points.middle(p, q, l.from);
    let w = points.offset(p, q);
    Values::Two(plane::cross(d.u, m), plane::dot(d.u, w))
}

fn equal_radius(points: Located<'_>, c1: PointNo, f1: PointNo, c2: PointNo, f2: PointNo) -> Values
    ensures { result ≡ values_of (equal_radius_of (seen points.entry) c1 f1 c2 f2) }
{
    Values::One(points.apart(c1, f1) - points.apart(c2, f2))
}

// The residuals of an equation at the coordinates x. A measure is its equation with the value 0.
#[tactic(auto, unfolding(crate::specs::Ends::rows_given))]
pub fn values(e: Equation, ends: Ends, points: Located<'_>) -> Values
    ensures { result ≡ values_of (rows_given ends (seen points.entry) e) }
{
    match e {
        Equation::Coincident(a, b) => coincident(points, a, b),
        Equation::Level(a, b, axis) => level(points, a, b, axis),
        Equation::Parallel(_, _) => parallel(points, ends.first, ends.second),
        Equation::Perpendicular(_, _) => perpendicular(points, ends.first, ends.second),
        Equation::Collinear(_, _) => collinear(points, ends.first, ends.second),
        Equation::Equal(_, _) => equal(points, ends.first, ends.second),
        Equation::Held => Values::None,
        Equation::Distance(a, b, value) => distance(points, a, b, value),
        Equation::AxisDistance(a, b, axis, value, side) => axis_distance(
            points, a, b, axis, value, side,
        ),
        Equation::Length(_, value) => length(points, ends.first, value),
        Equation::PointLine(p, _, value, side) => point_line(points, p, ends.first, value, side),
        Equation::ArcEnds(c, f, t) => arc_ends(points, c, f, t),
        Equation::Radius(c, f, value) => radius(points, c, f, value),
        Equation::LineCircle(_, c, rad, side) => line_circle(points, ends.first, c, rad, side),
        Equation::CircleCircle(c1, r1, c2, r2, contact) => circle_circle(
            points, c1, r1, c2, r2, contact,
        ),
        Equation::LineArcAt(_, c, p) => line_arc_at(points, ends.first, c, p),
        Equation::ArcArcAt(c1, c2, p) => arc_arc_at(points, c1, c2, p),
        Equation::Midpoint(p, _) => midpoint(points, p, ends.first),
        Equation::ArcMidpoint(p, c, f, t) => arc_midpoint(points, p, c, f, t),
        Equation::Symmetric(p, q, _) => symmetric(points, p, q, ends.first),
        Equation::EqualRadius(c1, f1, c2, f2) => equal_radius(points, c1, f1, c2, f2),
    }
}
