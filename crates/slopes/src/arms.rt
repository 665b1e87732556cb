// One equation's rows, kind by kind: each arm clears a row and adds its entries into it as it goes, in the Rust's order, and answers
// how many rows it has laid.

#![tactic(auto, unfolding(crate::specs::Dense::row_into))]

ghost use Rattle.std.specs.Prelude.{◌≡◌};
ghost use Rattle.floats.specs.Ops.{zero⁺};
ghost use Rattle.rows.specs.Column.{laid};
ghost use Rattle.rows.specs.Ends.{rows_given};
ghost use Rattle.rows.specs.Kinds.{nowhere, coincident_of, level_kind_of, parallel_of, perpendicular_of, collinear_of, equal_of, distance_of, axis_distance_of, length_of, point_line_of, arc_ends_of, radius_kind_of, line_circle_of, circle_circle_of, line_arc_at_of, arc_arc_at_of, midpoint_of, arc_midpoint_of, symmetric_of, equal_radius_of};
ghost use Rattle.rows.specs.Located.{seen};
ghost use Rattle.slopes.specs.Arms.{rows_into};

use crate::dense::{Dense, Rows};
use plane::Vec2;
use rows::Ends;
use rows::vectors::{
    first_sign, on_axis, plus_vec, second_sign, side_down, side_up, times_vec, turned_down,
    turned_up,
};
use sketch::{Contact, Equation, Line, PointNo, Rad};

fn coincident(jac: &mut [f64], rows: Rows<'_>, a: PointNo, b: PointNo) -> usize
    ensures { laid result jac.new ≡ rows_into rows.entry.first jac.old (coincident_of nowhere a b) }
{
    let first = rows.first;
    first.clear(jac);
    first.push(jac, a, Vec2 { x: 1.0, y: 0.0 });
    first.push(jac, b, Vec2 { x: -1.0, y: 0.0 });
    let second = rows.second();
    second.clear(jac);
    second.push(jac, a, Vec2 { x: 0.0, y: 1.0 });
    second.push(jac, b, Vec2 { x: 0.0, y: -1.0 });
    2
}

fn level(jac: &mut [f64], row: Dense<'_>, a: PointNo, b: PointNo, axis: usize) -> usize
    ensures { laid result jac.new ≡ rows_into row.entry jac.old (level_kind_of nowhere a b axis) }
{
    let d = on_axis(axis, 1.0);
    row.clear(jac);
    row.push(jac, a, plane::neg(d));
    row.push(jac, b, d);
    1
}

fn parallel(jac: &mut [f64], row: Dense<'_>, i: Line, j: Line) -> usize
    ensures { laid result jac.new ≡ rows_into row.entry jac.old (parallel_of (seen row.entry.points) i j) }
{
    let di = row.points.dir(i);
    let dj = row.points.dir(j);
    row.clear(jac);
    row.through2(jac, (i, di, turned_down(dj.u)), (j, dj, turned_up(di.u)));
    1
}

fn perpendicular(jac: &mut [f64], row: Dense<'_>, i: Line, j: Line) -> usize
    ensures { laid result jac.new ≡ rows_into row.entry jac.old (perpendicular_of (seen row.entry.points) i j) }
{
    let di = row.points.dir(i);
    let dj = row.points.dir(j);
    row.clear(jac);
    row.through2(jac, (i, di, dj.u), (j, dj, di.u));
    1
}

fn collinear(jac: &mut [f64], rows: Rows<'_>, i: Line, j: Line) -> usize
    ensures { laid result jac.new ≡ rows_into rows.entry.first jac.old (collinear_of (seen rows.entry.first.points) i j) }
{
    let first = rows.first;
    let di = first.points.dir(i);
    let dj = first.points.dir(j);
    let along = turned_up(di.u);
    first.clear(jac);
    first.through2(jac, (i, di, turned_down(dj.u)), (j, dj, along));
    // The start of the second line on the first.
    let q = first.points.offset(i.from, j.from);
    let second = rows.second();
    second.clear(jac);
    second.through1(jac, i, di, turned_down(q));
    second.push(jac, j.from, along);
    second.push(jac, i.from, plane::neg(along));
    2
}

fn equal(jac: &mut [f64], row: Dense<'_>, i: Line, j: Line) -> usize
    ensures { laid result jac.new ≡ rows_into row.entry jac.old (equal_of (seen row.entry.points) i j) }
{
    let di = row.points.dir(i);
    let dj = row.points.dir(j);
    row.clear(jac);
    row.push(jac, i.to, di.u);
    row.push(jac, i.from, plane::neg(di.u));
    row.push(jac, j.to, plane::neg(dj.u));
    row.push(jac, j.from, dj.u);
    1
}

fn distance(jac: &mut [f64], row: Dense<'_>, a: PointNo, b: PointNo) -> usize
    ensures { laid result jac.new ≡ rows_into row.entry jac.old (distance_of (seen row.entry.points) a b zero⁺) }
{
    let d = row.points.unit_from(a, b);
    row.clear(jac);
    row.push(jac, b, d.u);
    row.push(jac, a, plane::neg(d.u));
    1
}

fn axis_distance(
    jac: &mut [f64],
    row: Dense<'_>,
    a: PointNo,
    b: PointNo,
    axis: usize,
    side: f64,
) -> usize
    ensures { laid result jac.new ≡ rows_into row.entry jac.old (axis_distance_of nowhere a b axis zero⁺ side) }
{
    let d = on_axis(axis, side);
    row.clear(jac);
    row.push(jac, b, d);
    row.push(jac, a, plane::neg(d));
    1
}

fn midpoint(jac: &mut [f64], rows: Rows<'_>, p: PointNo, l: Line) -> usize
    ensures { laid result jac.new ≡ rows_into rows.entry.first jac.old (midpoint_of nowhere p l) }
{
    let first = rows.first;
    let dx = Vec2 { x: 1.0, y: 0.0 };
    let half_x = times_vec(-0.5, dx);
    first.clear(jac);
    first.push(jac, p, dx);
    first.push(jac, l.from, half_x);
    first.push(jac, l.to, half_x);
    let dy = Vec2 { x: 0.0, y: 1.0 };
    let half_y = times_vec(-0.5, dy);
    let second = rows.second();
    second.clear(jac);
    second.push(jac, p, dy);
    second.push(jac, l.from, half_y);
    second.push(jac, l.to, half_y);
    2
}

fn arc_midpoint(
    jac: &mut [f64],
    rows: Rows<'_>,
    p: PointNo,
    c: PointNo,
    f: PointNo,
    t: PointNo,
) -> usize
    ensures { laid result jac.new ≡ rows_into rows.entry.first jac.old (arc_midpoint_of (seen rows.entry.first.points) p c f t) }
{
    let first = rows.first;
    // On the circle: as far from the centre as the start..
    let df = first.points.unit_from(c, f);
    let dp = first.points.unit_from(c, p);
    first.clear(jac);
    first.push(jac, f, df.u);
    first.push(jac, c, plane::sub(dp.u, df.u));
    first.push(jac, p, plane::neg(dp.u));
    // ..and as far from the start as from the end.
    let a = first.points.unit_from(f, p);
    let b = first.points.unit_from(t, p);
    let second = rows.second();
    second.clear(jac);
    second.push(jac, p, plane::sub(a.u, b.u));
    second.push(jac, f, plane::neg(a.u));
    second.push(jac, t, b.u);
    2
}

fn symmetric(jac: &mut [f64], rows: Rows<'_>, p: PointNo, q: PointNo, l: Line) -> usize
    ensures { laid result jac.new ≡ rows_into rows.entry.first jac.old (symmetric_of (seen rows.entry.first.points) p q l) }
{
    let first = rows.first;
    // The middle of the two points on the line..
    let d = first.points.dir(l);
    let m = first.points.middle(p, q, l.from);
    let toward = turned_up(d.u);
    let half = times_vec(0.5, toward);
    first.clear(jac);
    first.through1(jac, l, d, turned_down(m));
    first.push(jac, p, half);
    first.push(jac, q, half);
    first.push(jac, l.from, plane::neg(toward));
    // ..and the segment between them across it.
    let w = first.points.offset(p, q);
    let second = rows.second();
    second.clear(jac);
    second.through1(jac, l, d, w);
    second.push(jac, q, d.u);
    second.push(jac, p, plane::neg(d.u));
    2
}

fn equal_radius(
    jac: &mut [f64],
    row: Dense<'_>,
    c1: PointNo,
    f1: PointNo,
    c2: PointNo,
    f2: PointNo,
) -> usize
    ensures { laid result jac.new ≡ rows_into row.entry jac.old (equal_radius_of (seen row.entry.points) c1 f1 c2 f2) }
{
    let d1 = row.points.unit_from(c1, f1);
    let d2 = row.points.unit_from(c2, f2);
    row.clear(jac);
    row.push(jac, f1, d1.u);
    row.push(jac, c1, plane::neg(d1.u));
    row.push(jac, f2, plane::neg(d2.u));
    row.push(jac, c2, d2.u);
    1
}

fn length(jac: &mut [f64], row: Dense<'_>, l: Line) -> usize
    ensures { laid result jac.new ≡ rows_into row.entry jac.old (length_of (seen row.entry.points) l zero⁺) }
{
    let d = row.points.dir(l);
    row.clear(jac);
    row.push(jac, l.to, d.u);
    row.push(jac, l.from, plane::neg(d.u));
    1
}

fn point_line(jac: &mut [f64], row: Dense<'_>, p: PointNo, l: Line, side: f64) -> usize
    ensures { laid result jac.new ≡ rows_into row.entry jac.old (point_line_of (seen row.entry.points) p l zero⁺ side) }
{
    let d = row.points.dir(l);
    let q = row.points.offset(l.from, p);
    row.clear(jac);
    row.through1(jac, l, d, side_down(side, q));
    let toward = side_up(side, d.u);
    row.push(jac, p, toward);
    row.push(jac, l.from, plane::neg(toward));
    1
}

fn arc_ends(jac: &mut [f64], row: Dense<'_>, c: PointNo, f: PointNo, t: PointNo) -> usize
    ensures { laid result jac.new ≡ rows_into row.entry jac.old (arc_ends_of (seen row.entry.points) c f t) }
{
    let df = row.points.unit_from(c, f);
    let dt = row.points.unit_from(c, t);
    row.clear(jac);
    row.push(jac, f, df.u);
    row.push(jac, c, plane::sub(dt.u, df.u));
    row.push(jac, t, plane::neg(dt.u));
    1
}

fn radius_kind(jac: &mut [f64], row: Dense<'_>, c: PointNo, f: PointNo) -> usize
    ensures { laid result jac.new ≡ rows_into row.entry jac.old (radius_kind_of (seen row.entry.points) c f zero⁺) }
{
    let d = row.points.unit_from(c, f);
    row.clear(jac);
    row.push(jac, f, d.u);
    row.push(jac, c, plane::neg(d.u));
    1
}

fn line_circle(jac: &mut [f64], row: Dense<'_>, l: Line, c: PointNo, rad: Rad, side: f64) -> usize
    ensures { laid result jac.new ≡ rows_into row.entry jac.old (line_circle_of (seen row.entry.points) l c rad side) }
{
    let d = row.points.dir(l);
    let q = row.points.offset(l.from, c);
    row.clear(jac);
    row.through1(jac, l, d, side_down(side, q));
    let toward = side_up(side, d.u);
    row.push(jac, c, toward);
    row.push(jac, l.from, plane::neg(toward));
    row.radius(jac, rad, c, -1.0);
    1
}

fn circle_circle(
    jac: &mut [f64],
    row: Dense<'_>,
    c1: PointNo,
    r1: Rad,
    c2: PointNo,
    r2: Rad,
    contact: Contact,
) -> usize
    ensures { laid result jac.new ≡ rows_into row.entry jac.old (circle_circle_of (seen row.entry.points) c1 r1 c2 r2 contact) }
{
    let d = row.points.unit_from(c1, c2);
    row.clear(jac);
    row.push(jac, c2, d.u);
    row.push(jac, c1, plane::neg(d.u));
    row.radius(jac, r1, c1, first_sign(contact));
    row.radius(jac, r2, c2, second_sign(contact));
    1
}

fn line_arc_at(jac: &mut [f64], row: Dense<'_>, l: Line, c: PointNo, p: PointNo) -> usize
    ensures { laid result jac.new ≡ rows_into row.entry jac.old (line_arc_at_of (seen row.entry.points) l c p) }
{
    let d = row.points.dir(l);
    let w = row.points.unit_from(c, p);
    row.clear(jac);
    row.through1(jac, l, d, w.u);
    let gp = plane::across(w.u, d.u, w.len);
    row.push(jac, p, gp);
    row.push(jac, c, plane::neg(gp));
    1
}

fn arc_arc_at(jac: &mut [f64], row: Dense<'_>, c1: PointNo, c2: PointNo, p: PointNo) -> usize
    ensures { laid result jac.new ≡ rows_into row.entry jac.old (arc_arc_at_of (seen row.entry.points) c1 c2 p) }
{
    let w1 = row.points.unit_from(c1, p);
    let w2 = row.points.unit_from(c2, p);
    let g1 = plane::across(w1.u, turned_down(w2.u), w1.len);
    let g2 = plane::across(w2.u, turned_up(w1.u), w2.len);
    row.clear(jac);
    row.push(jac, p, plus_vec(g1, g2));
    row.push(jac, c1, plane::neg(g1));
    row.push(jac, c2, plane::neg(g2));
    1
}

// An equation's rows at the coordinates x.
#[tactic(auto, unfolding(rows::specs::Ends::rows_given))]
pub(crate) fn gradients(jac: &mut [f64], rows: Rows<'_>, e: Equation, ends: Ends) -> usize
    ensures { laid result jac.new ≡ rows_into rows.entry.first jac.old (rows_given ends (seen rows.entry.first.points) e) }
{
    let row = rows.first;
    let i = ends.first;
    let j = ends.second;
    match e {
        Equation::Coincident(a, b) => coincident(jac, rows, a, b),
        Equation::Level(a, b, axis) => level(jac, row, a, b, axis),
        Equation::Parallel(_, _) => parallel(jac, row, i, j),
        Equation::Perpendicular(_, _) => perpendicular(jac, row, i, j),
        Equation::Collinear(_, _) => collinear(jac, rows, i, j),
        Equation::Equal(_, _) => equal(jac, row, i, j),
        Equation::Held => 0,
        Equation::Distance(a, b, _) => distance(jac, row, a, b),
        Equation::AxisDistance(a, b, axis, _, side) => axis_distance(jac, row, a, b, axis, side),
        Equation::Length(_, _) => length(jac, row, i),
        Equation::PointLine(p, _, _, side) => point_line(jac, row, p, i, side),
        Equation::ArcEnds(c, f, t) => arc_ends(jac, row, c, f, t),
        Equation::Radius(c, f, _) => radius_kind(jac, row, c, f),
        Equation::LineCircle(_, c, rad, side) => line_circle(jac, row, i, c, rad, side),
        Equation::CircleCircle(c1, r1, c2, r2, contact) => {
            circle_circle(jac, row, c1, r1, c2, r2, contact)
        }
        Equation::LineArcAt(_, c, p) => line_arc_at(jac, row, i, c, p),
        Equation::ArcArcAt(c1, c2, p) => arc_arc_at(jac, row, c1, c2, p),
        Equation::Midpoint(p, _) => midpoint(jac, rows, p, i),
        Equation::ArcMidpoint(p, c, f, t) => arc_midpoint(jac, rows, p, c, f, t),
        Equation::Symmetric(p, q, _) => symmetric(jac, rows, p, q, i),
        Equation::EqualRadius(c1, f1, c2, f2) => equal_radius(jac, row, c1, f1, c2, f2),
    }
}
