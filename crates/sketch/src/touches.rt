// The points that an equation touches.
ghost use Rattle.std.specs.Prelude.{◌≡◌, ◌∷◌, ◌++◌, ◌≤◌, length};
ghost use Rattle.sketch.specs.Involved.{involved_of, touched_of, line_at, ends, on_circle};

use crate::{Equation, Line, LineNo, PointNo, Rad, Touched};

// What stands where nothing is: point 0, and a line from it to itself.
const NO_POINT: PointNo = PointNo(0);

fn line_at(lines: &[Line], l: LineNo) -> Line
    ensures { result ≡ line_at lines.now l }
{
    let none = Line {
        from: NO_POINT,
        to: NO_POINT,
    };
    slices::get_or(lines, l.0, none)
}

// These points, in their order.
fn touched(points: &[PointNo]) -> Touched
    requires { length points.now ≤ 4 }
    ensures { result ≡ touched_of points.now }
{
    Touched {
        points: [
            slices::get_or(points, 0, NO_POINT),
            slices::get_or(points, 1, NO_POINT),
            slices::get_or(points, 2, NO_POINT),
            slices::get_or(points, 3, NO_POINT),
        ],
        count: points.len(),
    }
}

fn two_lines(lines: &[Line], i: LineNo, j: LineNo) -> Touched
    ensures { result ≡ touched_of (ends lines.now i ++ ends lines.now j) }
{
    let a = line_at(lines, i);
    let b = line_at(lines, j);
    touched(&[a.from, a.to, b.from, b.to])
}

fn line_circle(lines: &[Line], l: LineNo, c: PointNo, rad: Rad) -> Touched
    ensures { result ≡ touched_of (ends lines.now l ++ c ∷ on_circle rad) }
{
    let l = line_at(lines, l);
    match rad {
        Rad::Point(p) => touched(&[l.from, l.to, c, p]),
        Rad::Value(_) => touched(&[l.from, l.to, c]),
    }
}

fn circle_circle(c1: PointNo, r1: Rad, c2: PointNo, r2: Rad) -> Touched
    ensures { result ≡ touched_of (c1 ∷ on_circle r1 ++ c2 ∷ on_circle r2) }
{
    match (r1, r2) {
        (Rad::Point(p1), Rad::Point(p2)) => touched(&[c1, p1, c2, p2]),
        (Rad::Point(p1), Rad::Value(_)) => touched(&[c1, p1, c2]),
        (Rad::Value(_), Rad::Point(p2)) => touched(&[c1, c2, p2]),
        (Rad::Value(_), Rad::Value(_)) => touched(&[c1, c2]),
    }
}

pub fn involved(e: Equation, lines: &[Line]) -> Touched
    ensures { result ≡ touched_of (involved_of lines.now e) }
{
    match e {
        Equation::Coincident(a, b) => touched(&[a, b]),
        Equation::Level(a, b, _) => touched(&[a, b]),
        Equation::Parallel(i, j) => two_lines(lines, i, j),
        Equation::Perpendicular(i, j) => two_lines(lines, i, j),
        Equation::Collinear(i, j) => two_lines(lines, i, j),
        Equation::Equal(i, j) => two_lines(lines, i, j),
        Equation::Held => touched(&[]),
        Equation::Distance(a, b, _) => touched(&[a, b]),
        Equation::AxisDistance(a, b, _, _, _) => touched(&[a, b]),
        Equation::Length(l, _) => {
            let l = line_at(lines, l);
            touched(&[l.from, l.to])
        }
        Equation::PointLine(p, l, _, _) => {
            let l = line_at(lines, l);
            touched(&[p, l.from, l.to])
        }
        Equation::ArcEnds(c, f, t) => touched(&[c, f, t]),
        Equation::Radius(c, f, _) => touched(&[c, f]),
        Equation::LineCircle(l, c, rad, _) => line_circle(lines, l, c, rad),
        Equation::CircleCircle(c1, r1, c2, r2, _) => circle_circle(c1, r1, c2, r2),
        Equation::LineArcAt(l, c, p) => {
            let l = line_at(lines, l);
            touched(&[l.from, l.to, c, p])
        }
        Equation::ArcArcAt(c1, c2, p) => touched(&[c1, c2, p]),
        Equation::Midpoint(p, l) => {
            let l = line_at(lines, l);
            touched(&[p, l.from, l.to])
        }
        Equation::ArcMidpoint(p, c, f, t) => touched(&[p, c, f, t]),
        Equation::Symmetric(p, q, l) => {
            let l = line_at(lines, l);
            touched(&[p, q, l.from, l.to])
        }
        Equation::EqualRadius(c1, f1, c2, f2) => touched(&[c1, f1, c2, f2]),
    }
}
