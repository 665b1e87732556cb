// The basis: each unit vector from the rank on, reflected by every reflector from the last to the first.
ghost use Rattle.std.specs.Prelude.{◌++◌, ◌≡◌, ◌+◌, ◌-◌, ◌*◌, ◌≤◌, ◌<◌, length, drop, set, replicate};
ghost use Rattle.floats.specs.Ops.{zero⁺, one};
ghost use Rattle.nullspace.specs.Layout.{laid_basis, laid_vector};

use crate::reflect;

fn unit(e: &mut [f64], j: usize)
    requires { j < length e.old }
    ensures { e.new ≡ set (replicate (length e.old) zero⁺) j one }
{
    e.fill(0.0);
    e[j] = 1.0;
}

// Where row `r` starts. The test always holds: without it the compiler sees a place that only falls from turn to turn, and keeps the
// reflection below from vector instructions.
fn row_start(r: usize, n: usize, len: usize) -> usize
    requires { r * n + n ≤ len }
    ensures { result ≡ r * n }
{
    let s = r * n;
    if s <= len - n { s } else { 0 }
}

#[tactic(auto, using(loops::proofs::Cells::cells))]
fn reflected(e: &mut [f64], n: usize, v: &[f64], rank: usize, j: usize)
    requires { ((length e.old ≡ n) × (j < n)) × (rank * n ≤ length v.now) }
    ensures { e.new ≡ laid_vector n rank v.now j }
{
    unit(e, j);
    for r in (0..rank).rev() {
        let start = row_start(r, n, v.len());
        let end = start + n;
        reflect::reflect(&v[start..end], n, e);
    }
}

// A vector of the basis, as it is handed out.
fn vector(e: &mut [f64], n: usize, v: &[f64], rank: usize, j: usize)
    requires { ((length e.old ≡ n) × (j < n)) × (rank * n ≤ length v.now) }
    ensures { e.new ≡ laid_vector n rank v.now j }
{
    reflected(e, n, v, rank, j);
    floats::hand_out(e);
}

// The vectors one after another at the head of `out`.
#[tactic(auto, using(loops::proofs::Cells::cells))]
pub(crate) fn vectors(out: &mut [f64], v: &[f64], n: usize, rank: usize)
    requires { ((rank ≤ n) × (n * n ≤ length out.old)) × (rank * n ≤ length v.now) }
    ensures { out.new ≡ laid_basis n rank v.now ++ drop ((n - rank) * n) out.old }
{
    for j in rank..n {
        let start = (j - rank) * n;
        let end = start + n;
        vector(&mut out[start..end], n, v, rank, j);
    }
}
