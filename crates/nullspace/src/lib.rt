// The null space of a bare matrix that lies in a lent slice row after row, after the Rust's solver.rs.

#![tactic(auto)]

ghost use Rattle.std.specs.Prelude.{Ok, Err, OnOk, ◌++◌, ◌≡◌, ◌-◌, ◌*◌, ◌≤◌, length, drop};
ghost use Rattle.slices.specs.declared.Refusal.TheVariants.{TooMany, TooShort};
ghost use Rattle.nullspace.specs.Promise.{Spans, checked, decomposed_of, vectors_of};
ghost use Rattle.nullspace.specs.Steps.{rank_of};

use slices::Refusal;

mod basis;
mod qr;
mod reflect;
mod units;

// The rank of the matrix of `rows` rows and `n` columns at the head of `m`, which is only read. The vectors of a basis of its null space lie
// one after another at the head of `out`, which has room for n vectors of n. `work` has room for as many numbers as the matrix has, which
// are +0.0 afterwards. A refusal changes nothing that is lent.
pub fn null_space(
    m: &[f64],
    rows: usize,
    n: usize,
    work: &mut [f64],
    out: &mut [f64],
) -> Result<usize, Refusal>
    ensures { Spans rows n m.now work.old out.old work.new out.new result }
{
    check(m, rows, n, work, out)?;
    let size = rows * n;
    let rank = span(m, rows, n, &mut work[..size], out);
    work[..size].fill(0.0);
    Ok(rank)
}

#[tactic(auto, unfolding(crate::specs::Promise::checked))]
fn check(m: &[f64], rows: usize, n: usize, work: &[f64], out: &[f64]) -> Result<(), Refusal>
    ensures answer { result ≡ checked rows n m.now work.now out.now (Err TooMany) (Err TooShort) (Ok tt) }
    ensures fits { OnOk result ((rows ≤ 64) × (n ≤ 80) × (rows * n ≤ length m.now) × (rows * n ≤ length work.now) × (n * n ≤ length out.now)) }
{
    if 64 < rows || 80 < n {
        return Err(Refusal::TooMany);
    }
    let size = rows * n;
    if m.len() < size || work.len() < size || out.len() < n * n {
        return Err(Refusal::TooShort);
    }
    Ok(())
}

// The same with a working room of the very shape, which is left as the decomposition left it.
#[tactic(auto, using(loops::proofs::Cells::cells))]
fn span(m: &[f64], rows: usize, n: usize, work: &mut [f64], out: &mut [f64]) -> usize
    requires { (rows * n ≤ length m.now) × ((length work.old ≡ rows * n) × (n * n ≤ length out.old)) }
    ensures { (result ≡ rank_of (decomposed_of rows n m.now)) × (out.new ≡ vectors_of rows n m.now ++ drop ((n - result) * n) out.old) }
{
    units::unit_rows(m, rows, n, work);
    let rank = qr::decompose(work, rows, n);
    let kept = rank * n;
    basis::vectors(out, &work[..kept], n, rank);
    rank
}
