// The gradients of a list of equations, dense row after row in a lent slice.
ghost use Rattle.std.specs.Prelude.{◌≡◌, ◌+◌, ◌≤◌};
ghost use Rattle.loops.specs.Turns.{fold};
ghost use Rattle.rows.specs.Column.{laid};
ghost use Rattle.rows.specs.Kinds.{rows_of_equation};
ghost use Rattle.rows.specs.Located.{seen};
ghost use Rattle.slopes.specs.Dense.{next_row, jacobian_of};

use crate::arms::gradients;
use crate::dense::{Dense, Rows};
use rows::{Located, ends_of};
use sketch::{Active, Equation, Line};

// Puts the gradients of an equation's rows, n places each, from `row` on, and answers the row after them.
fn rows_into(
    j: &mut [f64],
    row: usize,
    e: Equation,
    lines: &[Line],
    points: Located<'_>,
    columns: &[u8],
    n: usize,
) -> usize
    requires room { row ≤ 78 }
    requires narrow { n ≤ 80 }
    ensures stored { laid result j.new ≡ fold (next_row points.entry.places.now columns.now n) (laid row j.old) (rows_of_equation lines.now (seen points.entry) e) }
    ensures few { result ≤ row + 2 }
{
    let first = Dense {
        points,
        columns,
        n,
        base: row * n,
    };
    row + gradients(j, Rows { first }, e, ends_of(e, lines))
}

// The gradients of the rows of the chosen equations at the coordinates x, over n free coordinates, row after row in j, and how many
// rows they are. More than 40 equations or 80 free coordinates are refused: none, and j as it was.
pub fn jacobian(
    equations: &[Active; 40],
    lines: &[Line; 40],
    chosen: &[usize],
    points: Located<'_>,
    columns: &[u8],
    n: usize,
    j: &mut [f64],
) -> usize
    ensures { laid result j.new ≡ jacobian_of equations.now lines.now points.entry.places.now points.entry.x.now columns.now n chosen.now j.old }
{
    if (40 < chosen.len()) | (80 < n) {
        return 0;
    }
    let mut row = 0;
    for &k in chosen {
        // Past the end there is `Held`, which has no row.
        if let Some(a) = equations.get(k) {
            row = rows_into(j, row, a.equation, lines, points, columns, n);
        }
    }
    row
}
