// The lower half of the product of the Jacobian with its transpose.
ghost use Rattle.std.specs.Prelude.{◌≡◌, ◌≤◌, ◌<◌, length};
ghost use Rattle.loops.specs.Turns.{up_to};
ghost use Rattle.normal.specs.Half.{triangle};
ghost use Rattle.normal.specs.Inside.{put_row};
ghost use Rattle.normal.specs.Promise.{Multiplies};

use crate::jacobian::Jacobian;
use slices::Refusal;

// Where row i of a half begins: the rows before it have 1, 2, .. i numbers.
pub(crate) fn triangle(i: usize) -> usize
    requires { i ≤ 80 }
    ensures { result ≡ triangle i }
{
    i * (i + 1) / 2
}

// Row i of the half. The product is symmetric, so what is right of the diagonal is not worked out.
fn half_row(j: &Jacobian, h: &mut [f64], i: usize)
    requires { (i < j.now.rows) × (j.now.rows ≤ 80) × (triangle j.now.rows ≤ length h.old) }
    ensures { h.new ≡ put_row j.now.columns j.now.numbers.now i h.old }
{
    let t = triangle(i);
    // By index: k is the number of a row of the Jacobian too.
    for k in 0..i + 1 {
        h[t + k] = j.rows_product(k, i);
    }
}

fn half_rows(j: &Jacobian, h: &mut [f64])
    requires { (j.now.rows ≤ 80) × (triangle j.now.rows ≤ length h.old) }
    ensures { h.new ≡ up_to j.now.rows 0 (put_row j.now.columns j.now.numbers.now) h.old }
{
    for i in 0..j.rows {
        half_row(j, h, i);
    }
}

// The half of J Jᵀ, at the head of h.
#[tactic(auto, using(crate::proofs::Halves::written))]
pub fn product(j: &[f64], h: &mut [f64], rows: usize, nf: usize) -> Result<(), Refusal>
    ensures { Multiplies rows nf j.now h.old h.new result }
{
    if 80 < rows || 80 < nf {
        return Err(Refusal::TooMany);
    }
    if j.len() < rows * nf || h.len() < triangle(rows) {
        return Err(Refusal::TooShort);
    }
    let j = Jacobian {
        numbers: j,
        rows,
        columns: nf,
    };
    half_rows(&j, h);
    Ok(())
}
