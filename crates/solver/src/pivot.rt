// The loop over the columns: the pivot, the exchange of two rows, and the rows below it.
ghost use Rattle.std.specs.Prelude.{◌≡◌, ◌+◌, ◌*◌, ◌≤◌, ◌<◌, length};
ghost use Rattle.solver.specs.Inside.{Reaches, Sized, larger_number};
ghost use Rattle.solver.specs.Lesser.{part_swapped, lesser_swapped, lesser_column, lesser_eliminated};
ghost use Rattle.solver.specs.Reasons.{some, or_no_pivot};
ghost use Rattle.solver.specs.Steps.{sys, scale_of, larger_row, pivot_of};

use crate::{Unsolved, below};

// The largest magnitude, NaN skipped, at least 1e-300.
fn scale(a: &[f64]) -> f64
    ensures { result ≡ scale_of a.now }
{
    // A plain loop: the same by `fold` took longer.
    let mut m = 0.0;
    for v in a {
        m = larger(m, *v);
    }
    floats::max(m, 1e-300)
}

// Where m is no NaN, that is the larger of m and the magnitude of v, and no NaN either: so no test for one is needed at the next turn.
fn larger(m: f64, v: f64) -> f64
    ensures { result ≡ larger_number m v }
{
    let a = floats::abs(v);
    if m < a { a } else { m }
}

// The row from `col` on with the largest magnitude in column `col`, the lowest one on ties.
#[tactic(auto, using(loops::proofs::Cells::cells))]
fn pivot_row(a: &[f64], n: usize, col: usize) -> usize
    requires { (col < n) × (n * n ≤ length a.now) }
    ensures { (result ≡ pivot_of n col a.now) × (result < n) }
{
    let mut best = Candidate {
        row: col,
        size: floats::magnitude(a[col * n + col]),
    };
    for row in col + 1..n {
        best = larger_row(a, n, col, row, best);
    }
    best.row
}

// A row and its magnitude in the pivot column.
#[derive(Clone, Copy)]
struct Candidate {
    row: usize,
    size: u64,
}

#[tactic(auto, using(loops::proofs::Cells::cells))]
fn larger_row(a: &[f64], n: usize, col: usize, q: usize, p: Candidate) -> Candidate
    requires { ((q < n) × ((col < n) × (n * n ≤ length a.now))) × Sized n col a.now p }
    ensures { (result.row ≡ larger_row n col a.now q p.row) × Sized n col a.now result }
{
    let s = floats::magnitude(a[q * n + col]);
    if p.size < s {
        Candidate { row: q, size: s }
    } else {
        p
    }
}

// The rows `piv` and `col` from column `col` on: left of it neither is read again. Written out, since `floats::swap` tests its places at
// every turn.
#[tactic(auto, using(loops::proofs::Cells::cells))]
fn swap_rows(a: &mut [f64], n: usize, col: usize, piv: usize)
    requires { ((piv < n) × (col < n)) × (n * n ≤ length a.old) }
    ensures { a.new ≡ part_swapped n col piv a.old }
{
    for c in col..n {
        let p = piv * n + c;
        let q = col * n + c;
        let x = a[p];
        a[p] = a[q];
        a[q] = x;
    }
}

// Brings the pivot's row to `col`, in the matrix and in the right side.
fn swap_in(a: &mut [f64], b: &mut [f64], n: usize, col: usize, piv: usize)
    requires { ((piv < n) × (col < n)) × ((n * n ≤ length a.old) × (n ≤ length b.old)) }
    ensures { sys a.new b.new ≡ lesser_swapped n col piv (sys a.old b.old) }
{
    if piv == col {
        return;
    }
    swap_rows(a, n, col, piv);
    floats::swap(b, piv, col);
}

// Clears column `col` below its pivot; where there is none, nothing is said of what is left.
#[tactic(auto, using(loops::proofs::Cells::cells))]
fn column(a: &mut [f64], b: &mut [f64], n: usize, scale: f64, col: usize) -> Result<(), Unsolved>
    requires { (col < n) × ((n * n ≤ length a.old) × (n ≤ length b.old)) }
    ensures { Reaches (or_no_pivot (lesser_column n scale col (sys a.old b.old)) col some) (sys a.new b.new) result }
{
    let piv = pivot_row(a, n, col);
    if floats::abs(a[piv * n + col]) <= scale * 1e-15 {
        return Err(Unsolved::NoPivot(col + 1));
    }
    swap_in(a, b, n, col, piv);
    below::clear_below(a, b, n, col);
    Ok(())
}

// Brings the matrix to upper triangular form.
pub(crate) fn eliminate(a: &mut [f64], b: &mut [f64], n: usize) -> Result<(), Unsolved>
    requires { (n * n ≤ length a.old) × (n ≤ length b.old) }
    ensures { Reaches (lesser_eliminated n (sys a.old b.old)) (sys a.new b.new) result }
{
    let s = scale(a);
    for col in 0..n {
        column(a, b, n, s, col)?;
    }
    Ok(())
}
