// Calls on a bare matrix that lies in a lent slice row after row, and on bare slices, after the Rust's solver.rs.

#![tactic(auto)]

ghost use Rattle.std.specs.Prelude.{Ok, Err, OnOk, ◌≡◌, ◌*◌, ◌≤◌, length};
ghost use Rattle.slices.specs.declared.Refusal.TheVariants.{TooMany, TooShort};
ghost use Rattle.solver.specs.Sums.{norm2_of};
ghost use Rattle.solver.specs.Promise.{Finds, Solves, checked};
ghost use Rattle.solver.specs.declared.Unsolved.TheVariants.{Refused};

use slices::Refusal;

mod back;
mod below;
mod pivot;

pub use below::row_update;

// The sum of the squares.
pub fn norm2(v: &[f64]) -> f64
    ensures { result ≡ norm2_of v.now }
{
    floats::handed_out(v.iter().fold(-0.0, |s, x| s + *x * *x))
}

// Why a system has no answer.
#[derive(Clone, Copy, Debug, PartialEq, Eq)]
pub enum Unsolved {
    // This column, counted from 1, has no pivot, ..
    NoPivot(usize),
    // .. or every column has one and a result is not finite.
    NotFinite,
    // The call was not carried out, and nothing that is lent changed.
    Refused(Refusal),
}

impl From<Refusal> for Unsolved {
    ghost from_gives = { λ why e. e ≡ Refused why };

    fn from(why: Refusal) -> Unsolved {
        Unsolved::Refused(why)
    }
}

// Solves the n × n system whose matrix is at the head of `a` and whose right side is at the head of `b`. The right side's first n places
// hold the answer afterwards, or +0.0 where there is none; the matrix's n * n places are +0.0.
pub fn solve_dense(a: &mut [f64], b: &mut [f64], n: usize) -> Result<(), Unsolved>
    ensures { Solves n a.old b.old a.new b.new result }
{
    check(a, b, n)?;
    let nn = n * n;
    let solved = solve_square(&mut a[..nn], &mut b[..n], n);
    a[..nn].fill(0.0);
    if solved.is_err() {
        b[..n].fill(0.0);
    }
    solved
}

#[tactic(auto, unfolding(crate::specs::Promise::checked))]
fn check(a: &[f64], b: &[f64], n: usize) -> Result<(), Refusal>
    ensures answer { result ≡ checked n a.now b.now (Err TooMany) (Err TooShort) (Ok tt) }
    ensures fits { OnOk result ((n ≤ 80) × (n * n ≤ length a.now) × (n ≤ length b.now)) }
{
    if 80 < n {
        return Err(Refusal::TooMany);
    }
    if !loops::holds(a.len(), n, n) || b.len() < n {
        return Err(Refusal::TooShort);
    }
    Ok(())
}

// The same on slices of the very shape, which leaves the matrix as elimination left it, and the right side too where there is no answer.
fn solve_square(a: &mut [f64], b: &mut [f64], n: usize) -> Result<(), Unsolved>
    requires { (length a.old ≡ n * n) × (length b.old ≡ n) }
    ensures { Finds n a.old b.old b.new result }
{
    pivot::eliminate(a, b, n)?;
    back::substitute(a, b, n);
    if back::all_finite(b) {
        Ok(())
    } else {
        Err(Unsolved::NotFinite)
    }
}
