// The step: the free coordinates less the Jacobian's transpose times y.
ghost use Rattle.std.specs.Prelude.{◌≡◌, ◌≤◌, ◌<◌, length};
ghost use Rattle.normal.specs.Normal.{move_one, moved_of};
ghost use Rattle.normal.specs.Promise.{Moves};

use crate::jacobian::Jacobian;
use slices::Refusal;

// Coordinate free[c] less its part of the step.
fn move_one(j: &Jacobian, y: &[f64], free: &[usize], x: &mut [f64], c: usize)
    requires { (c < j.now.columns) × (j.now.rows ≤ length y.now) × (j.now.columns ≤ length free.now) }
    ensures { x.new ≡ move_one j.now.rows j.now.columns j.now.numbers.now y.now free.now c x.old }
{
    let s = j.step_of(y, c);
    let at = free[c];
    if at < x.len() {
        x[at] -= s;
    }
}

fn move_all(j: &Jacobian, y: &[f64], free: &[usize], x: &mut [f64])
    requires { (j.now.rows ≤ length y.now) × (j.now.columns ≤ length free.now) }
    ensures { x.new ≡ moved_of j.now.rows j.now.columns j.now.numbers.now y.now free.now x.old }
{
    for c in 0..j.columns {
        move_one(j, y, free, x, c);
    }
}

// Every free coordinate moved by its part of the step.
pub fn moved(
    j: &[f64],
    y: &[f64],
    free: &[usize],
    x: &mut [f64],
    rows: usize,
    nf: usize,
) -> Result<(), Refusal>
    ensures { Moves rows nf j.now y.now free.now x.old x.new result }
{
    if 80 < rows || 80 < nf {
        return Err(Refusal::TooMany);
    }
    if j.len() < rows * nf || y.len() < rows || free.len() < nf {
        return Err(Refusal::TooShort);
    }
    let j = Jacobian {
        numbers: j,
        rows,
        columns: nf,
    };
    move_all(&j, y, free, x);
    Ok(())
}
