// The sweeps of `rows` and `slopes`, as often as it takes to time them.
ghost use Rattle.std.specs.Prelude.{◌≡◌};
ghost use Rattle.loops.specs.Turns.{up_to};
ghost use Rattle.rows.specs.Column.{laid};
ghost use Rattle.rooms_c.specs.Jobs.{built};
ghost use Rattle.rooms_c.specs.Sweeps.{column_again, jacobian_again};
ghost use Rattle.text.specs.Reader.{read_of};

use crate::builds::build_of;
use rows::Located;

// `rows::residuals`, `times` times over.
#[unsafe(no_mangle)]
pub extern "C" fn rooms_residuals(
    text: &[u8],
    chosen: &[usize],
    places: &[u8],
    x: &[f64],
    r: &mut [f64],
    times: usize,
) -> usize
    ensures { laid result r.new ≡ up_to times 0 (column_again (built (read_of text.now)).equations (built (read_of text.now)).lines chosen.now places.now x.now) (laid 0 r.old) }
{
    let b = build_of(text);
    let mut n = 0;
    for _ in 0..times {
        n = rows::residuals(&b.equations, &b.lines, chosen, Located { places, x }, r);
    }
    n
}

// `slopes::jacobian`, `times` times over.
#[unsafe(no_mangle)]
pub extern "C" fn rooms_jacobian(
    text: &[u8],
    chosen: &[usize],
    places: &[u8],
    columns: &[u8],
    free: usize,
    x: &[f64],
    j: &mut [f64],
    times: usize,
) -> usize
    ensures { laid result j.new ≡ up_to times 0 (jacobian_again (built (read_of text.now)).equations (built (read_of text.now)).lines chosen.now places.now columns.now free x.now) (laid 0 j.old) }
{
    let b = build_of(text);
    let points = Located { places, x };
    let mut n = 0;
    for _ in 0..times {
        n = slopes::jacobian(&b.equations, &b.lines, chosen, points, columns, free, j);
    }
    n
}
