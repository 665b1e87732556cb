// The lines that an equation names.
ghost use Rattle.std.specs.Prelude.{◌≡◌};
ghost use Rattle.rows.specs.Ends.{both_of, only_of, neither_of, line_nos_of, ends_of};

use crate::{Ends, LineNos};
use sketch::{Equation, Line, LineNo, PointNo};

// What stands where there is no such line: point 0 twice.
const NO_LINE: Line = Line {
    from: PointNo(0),
    to: PointNo(0),
};

fn both(i: LineNo, j: LineNo) -> LineNos
    ensures { result ≡ both_of i j }
{
    LineNos {
        first: i,
        second: j,
    }
}

fn only(l: LineNo) -> LineNos
    ensures { result ≡ only_of l }
{
    both(l, LineNo(0))
}

fn neither() -> LineNos
    ensures { result ≡ neither_of }
{
    only(LineNo(0))
}

// The numbers of an equation's lines.
pub fn lines_of(e: Equation) -> LineNos
    ensures { result ≡ line_nos_of e }
{
    match e {
        Equation::Parallel(i, j)
        | Equation::Perpendicular(i, j)
        | Equation::Collinear(i, j)
        | Equation::Equal(i, j) => both(i, j),
        Equation::Length(l, _)
        | Equation::PointLine(_, l, _, _)
        | Equation::LineCircle(l, _, _, _)
        | Equation::LineArcAt(l, _, _)
        | Equation::Midpoint(_, l)
        | Equation::Symmetric(_, _, l) => only(l),
        _ => neither(),
    }
}

// The ends of an equation's lines.
pub fn ends_of(e: Equation, lines: &[Line]) -> Ends
    ensures { result ≡ ends_of lines.now e }
{
    let named = lines_of(e);
    Ends {
        first: slices::get_or(lines, named.first.0, NO_LINE),
        second: slices::get_or(lines, named.second.0, NO_LINE),
    }
}
