// Whether what a build refers to is there, among n points and m lines.
ghost use Rattle.std.specs.Prelude.{◌≡◌};
ghost use Rattle.loops.specs.Turns.{every};
ghost use Rattle.sketch.specs.Indices.{found_line, found_rad, found_equation, found_active, found_measure, found_measured};

use crate::{Active, Equation, Line, Measure, Measured, Rad};

fn line_found(l: Line, n: usize) -> bool
    ensures { result ≡ found_line n l }
{
    (l.from.0 < n) & (l.to.0 < n)
}

fn rad_found(r: Rad, n: usize) -> bool
    ensures { result ≡ found_rad n r }
{
    match r {
        Rad::Point(p) => p.0 < n,
        Rad::Value(_) => true,
    }
}

fn equation_found(e: Equation, n: usize, m: usize) -> bool
    ensures { result ≡ found_equation n m e }
{
    match e {
        Equation::Coincident(a, b) => (a.0 < n) & (b.0 < n),
        Equation::Level(a, b, _) => (a.0 < n) & (b.0 < n),
        Equation::Parallel(i, j) => (i.0 < m) & (j.0 < m),
        Equation::Perpendicular(i, j) => (i.0 < m) & (j.0 < m),
        Equation::Collinear(i, j) => (i.0 < m) & (j.0 < m),
        Equation::Equal(i, j) => (i.0 < m) & (j.0 < m),
        Equation::Held => true,
        Equation::Distance(a, b, _) => (a.0 < n) & (b.0 < n),
        Equation::AxisDistance(a, b, _, _, _) => (a.0 < n) & (b.0 < n),
        Equation::Length(l, _) => l.0 < m,
        Equation::PointLine(p, l, _, _) => (p.0 < n) & (l.0 < m),
        Equation::ArcEnds(c, f, t) => (c.0 < n) & (f.0 < n) & (t.0 < n),
        Equation::Radius(c, f, _) => (c.0 < n) & (f.0 < n),
        Equation::LineCircle(l, c, rad, _) => (l.0 < m) & (c.0 < n) & rad_found(rad, n),
        Equation::CircleCircle(c1, r1, c2, r2, _) => {
            (c1.0 < n) & rad_found(r1, n) & (c2.0 < n) & rad_found(r2, n)
        }
        Equation::LineArcAt(l, c, p) => (l.0 < m) & (c.0 < n) & (p.0 < n),
        Equation::ArcArcAt(c1, c2, p) => (c1.0 < n) & (c2.0 < n) & (p.0 < n),
        Equation::Midpoint(p, l) => (p.0 < n) & (l.0 < m),
        Equation::ArcMidpoint(p, c, f, t) => (p.0 < n) & (c.0 < n) & (f.0 < n) & (t.0 < n),
        Equation::Symmetric(p, q, l) => (p.0 < n) & (q.0 < n) & (l.0 < m),
        Equation::EqualRadius(c1, f1, c2, f2) => (c1.0 < n) & (f1.0 < n) & (c2.0 < n) & (f2.0 < n),
    }
}

fn measure_found(d: Measure, n: usize, m: usize) -> bool
    ensures { result ≡ found_measure n m d }
{
    match d {
        Measure::Distance(a, b) => (a.0 < n) & (b.0 < n),
        Measure::AxisDistance(a, b, _, _) => (a.0 < n) & (b.0 < n),
        Measure::Length(l) => l.0 < m,
        Measure::PointLine(p, l, _) => (p.0 < n) & (l.0 < m),
        Measure::Radius(c, f) => (c.0 < n) & (f.0 < n),
    }
}

pub(crate) fn lines_found(lines: &[Line], n: usize) -> bool
    ensures { result ≡ every (found_line n) lines.now }
{
    lines.iter().all(|l| line_found(*l, n))
}

pub(crate) fn equations_found(equations: &[Active], n: usize, m: usize) -> bool
    ensures { result ≡ every (found_active n m) equations.now }
{
    equations.iter().all(|a| equation_found(a.equation, n, m))
}

pub(crate) fn measures_found(measures: &[Measured], n: usize, m: usize) -> bool
    ensures { result ≡ every (found_measured n m) measures.now }
{
    measures.iter().all(|a| measure_found(a.measure, n, m))
}
