// How a fit begins: converged at its start, nothing free, or the rounds; and the public call.
ghost use Rattle.std.specs.Prelude.{◌≡◌, ◌≤◌, length};
ghost use Rattle.members.specs.Lists.{numbers_of};
ghost use Rattle.members.specs.Movable.{indices_of};
ghost use Rattle.rounds.specs.Inside.{Shapes, Matrices, Own, problem_in, jacobian_in, ended_of};
ghost use Rattle.rounds.specs.Promise.{Solves, Leaves, saying};
ghost use Rattle.rounds.specs.Solve.{solve_of};

use crate::round::{all_rounds, within};
use crate::task::Task;
use crate::{Fit, Posed, Solved, Unfitted};
use slices::Refusal;

// Where the fit ends: converged or failed.
fn opened(
    p: &Task<'_>,
    x: &mut [f64],
    r: &mut [f64],
    j: &mut [f64],
    h: &mut [f64],
    w: &mut [f64],
) -> Result<Fit, Fit>
    requires { Shapes p.now j.old r.old × Matrices p.now h.old w.old × (length x.old ≤ 80) × Own p.now x.old r.old }
    ensures { ended_of x.new result ≡ solve_of (problem_in p.now) (jacobian_in p.now) x.old }
{
    if within(r) {
        return Ok(Fit::start(0.0));
    }
    if p.free.is_empty() {
        return Err(Fit::start(0.0));
    }
    all_rounds(p, x, r, j, h, w)
}

// The Jacobian lies in a, the half of the product in b and its working copy in c; what they held there is +0.0 afterwards.
#[tactic(auto, using(crate::proofs::Begins::table, crate::proofs::Begins::half_table, crate::proofs::Column::rows_few), unfolding(normal::specs::Half::triangle))]
fn in_areas(
    p: &Task<'_>,
    x: &mut [f64],
    a: &mut [f64],
    b: &mut [f64],
    c: &mut [f64],
) -> Result<Fit, Fit>
    requires { (length x.old ≤ 80) × (6400 ≤ length a.old) × (6400 ≤ length b.old) × (6400 ≤ length c.old) }
    ensures { Leaves p.now.equations.now p.now.lines.now p.now.places.now p.now.columns.now p.now.chosen.now p.now.free.now x.old a.old b.old c.old
        x.new a.new b.new c.new result }
{
    let mut r = [0.0; 80];
    let rows = p.values(x, &mut r);
    let a = &mut a[..rows * p.free.len()];
    let b = &mut b[..rows * (rows + 1) / 2];
    let c = &mut c[..rows * rows];
    let ended = opened(p, x, &mut r[..rows], a, b, c);
    a.fill(0.0);
    b.fill(0.0);
    c.fill(0.0);
    ended
}

fn refused(why: Refusal) -> Solved
    ensures { result ≡ saying (Err (Unfitted.Refused why)) 0 0 }
{
    Solved {
        ending: Err(Unfitted::Refused(why)),
        iterations: 0,
        tries: 0,
    }
}

// Fits the coordinates x to the chosen equations by moving the free ones. Where the fit fails, x is as it was.
pub fn solve(p: &Posed<'_>, x: &mut [f64], a: &mut [f64], b: &mut [f64], c: &mut [f64]) -> Solved
    ensures { Solves p.now.equations.now p.now.lines.now p.now.places.now p.now.columns.now (numbers_of p.now.chosen.now.0) (indices_of p.now.free.now)
        x.old a.old b.old c.old x.new a.new b.new c.new result }
{
    let Posed {
        equations,
        lines,
        chosen,
        places,
        columns,
        free,
    } = *p;
    let task = Task {
        equations,
        lines,
        chosen: chosen.0.numbers(),
        places,
        columns,
        free: free.0.numbers(),
    };
    if 80 < x.len() {
        return refused(Refusal::TooMany);
    }
    if a.len() < 6400 || b.len() < 6400 || c.len() < 6400 {
        return refused(Refusal::TooShort);
    }
    let mut here = [0.0; 80];
    let here = &mut here[..x.len()];
    here.copy_from_slice(x);
    match in_areas(&task, here, a, b, c) {
        Ok(fit) => {
            x.copy_from_slice(here);
            fit.ended(Ok(()))
        }
        Err(fit) => fit.ended(Err(Unfitted::Failed(fit.why))),
    }
}
