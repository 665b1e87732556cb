// The residuals of a list of equations, one after another in a lent slice.
ghost use Rattle.std.specs.Prelude.{◌≡◌, ◌+◌, ◌≤◌};
ghost use Rattle.loops.specs.Turns.{fold};
ghost use Rattle.rows.specs.Column.{laid, next_value, column_of};
ghost use Rattle.rows.specs.Kinds.{rows_of_equation};
ghost use Rattle.rows.specs.Located.{seen};

use crate::answer::Values;
use crate::{Located, ends_of, values};
use sketch::{Active, Equation, Line};

// Puts an equation's residuals from `row` on, and answers the row after them.
fn values_into(r: &mut [f64], row: usize, e: Equation, lines: &[Line], points: Located<'_>) -> usize
    requires { row ≤ 78 }
    ensures stored { laid result r.new ≡ fold next_value (laid row r.old) (rows_of_equation lines.now (seen points.entry) e) }
    ensures few { result ≤ row + 2 }
{
    match values(e, ends_of(e, lines), points) {
        Values::None => row,
        Values::One(v) => {
            slices::put(r, row, v);
            row + 1
        }
        Values::Two(v, w) => {
            slices::put(r, row, v);
            slices::put(r, row + 1, w);
            row + 2
        }
    }
}

// The residuals of the chosen equations at the coordinates x, one after another in r, and how many they are. More than 40
// equations are refused: none, and r as it was.
pub fn residuals(
    equations: &[Active; 40],
    lines: &[Line; 40],
    chosen: &[usize],
    points: Located<'_>,
    r: &mut [f64],
) -> usize
    ensures { laid result r.new ≡ column_of equations.now lines.now points.entry.places.now points.entry.x.now chosen.now r.old }
{
    if 40 < chosen.len() {
        return 0;
    }
    let mut row = 0;
    for &k in chosen {
        // Past the end there is `Held`, which has no row.
        if let Some(a) = equations.get(k) {
            row = values_into(r, row, a.equation, lines, points);
        }
    }
    row
}
