// From the last row to the first: the answer takes the right side's place.
ghost use Rattle.std.specs.Prelude.{◌≡◌, ◌+◌, ◌*◌, ◌≤◌, ◌<◌, length};
ghost use Rattle.std.specs.Float.Ieee.Scale.{finite};
ghost use Rattle.loops.specs.Turns.{every};
ghost use Rattle.solver.specs.Steps.{sys, sum_of, back_of};

// What the answers after row `r` weigh in it.
#[tactic(auto, using(loops::proofs::Cells::cells))]
fn weight(a: &[f64], y: &[f64], n: usize, r: usize) -> f64
    requires { (r < n) × ((n * n ≤ length a.now) × (n ≤ length y.now)) }
    ensures { result ≡ sum_of n r a.now y.now }
{
    let mut s = -0.0;
    for c in r + 1..n {
        s += a[r * n + c] * y[c];
    }
    s
}

// A place of `b` from row `r` on holds the answer, one before it still the right side.
#[tactic(auto, using(loops::proofs::Cells::cells))]
pub(crate) fn substitute(a: &[f64], b: &mut [f64], n: usize)
    requires { (n * n ≤ length a.now) × (length b.old ≡ n) }
    ensures { b.new ≡ back_of n (sys a.now b.old) }
{
    for r in (0..n).rev() {
        b[r] = (b[r] - weight(a, b, n, r)) / a[r * n + r];
    }
}

pub(crate) fn all_finite(y: &[f64]) -> bool
    ensures { result ≡ every finite y.now }
{
    y.iter().all(|v| floats::is_finite(*v))
}
