// The residual rows of an equation and of a build.
ghost use Rattle.std.specs.Prelude.{◌≡◌, ◌≤◌, length};
ghost use Rattle.loops.specs.Turns.{fold};
ghost use Rattle.sketch.specs.Rows.{rows_of, more_rows};

use crate::{Active, Equation};

#[tactic(auto, unfolding(crate::specs::Rows::rows_of))]
pub fn rows(e: Equation) -> usize
    ensures { result ≡ rows_of e }
{
    match e {
        Equation::Coincident(_, _) => 2,
        Equation::Level(_, _, _) => 1,
        Equation::Parallel(_, _) => 1,
        Equation::Perpendicular(_, _) => 1,
        Equation::Collinear(_, _) => 2,
        Equation::Equal(_, _) => 1,
        Equation::Held => 0,
        Equation::Distance(_, _, _) => 1,
        Equation::AxisDistance(_, _, _, _, _) => 1,
        Equation::Length(_, _) => 1,
        Equation::PointLine(_, _, _, _) => 1,
        Equation::ArcEnds(_, _, _) => 1,
        Equation::Radius(_, _, _) => 1,
        Equation::LineCircle(_, _, _, _) => 1,
        Equation::CircleCircle(_, _, _, _, _) => 1,
        Equation::LineArcAt(_, _, _) => 1,
        Equation::ArcArcAt(_, _, _) => 1,
        Equation::Midpoint(_, _) => 2,
        Equation::ArcMidpoint(_, _, _, _) => 2,
        Equation::Symmetric(_, _, _) => 2,
        Equation::EqualRadius(_, _, _, _) => 1,
    }
}

// The rows of all the equations, of which there are few enough that the sum fits.
pub(crate) fn rows_of_all(equations: &[Active]) -> usize
    requires { length equations.now ≤ 40 }
    ensures { result ≡ fold more_rows 0 equations.now }
{
    let mut total = 0;
    for a in equations {
        total += rows(a.equation);
    }
    total
}
