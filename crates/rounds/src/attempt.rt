// One damping attempt: its elimination, and what comes of it where that has an answer.
ghost use Rattle.std.specs.Prelude.{◌≡◌, ◌*◌, ◌≤◌, ◌<◌, length};
ghost use Rattle.normal.specs.Half.{triangle, spread_of};
ghost use Rattle.normal.specs.Normal.{damped_of};
ghost use Rattle.solver.specs.Promise.{Finds};
ghost use Rattle.solver.specs.Reasons.{some};
ghost use Rattle.rounds.specs.Inside.{trial_made, problem_in, rows_in, Matrices, Shapes, Trying};
ghost use Rattle.rounds.specs.Problem.{state_of, tried_of};
ghost use Rattle.rounds.specs.Reasons.{reason_of};
ghost use Rattle.rounds.specs.Solve.{judged, try_of};

use crate::task::Task;
use crate::{Fit, Reason};
use solver::Unsolved;

// The linear system of a round: the Jacobian, the half of its product, and the largest number on the product's diagonal.
#[derive(Clone, Copy)]
pub(crate) struct System<'a> {
    pub(crate) j: &'a [f64],
    pub(crate) half: &'a [f64],
    pub(crate) largest: f64,
}

impl System<'_> {
    // The step's y for the residuals r, or why there is none: the half is spread into w, damped and eliminated there with r on the right
    // side.
    fn step(&self, r: &[f64], w: &mut [f64], y: &mut [f64], mu: f64) -> Result<(), Unsolved>
        requires { (length r.now ≤ 80) × (triangle (length r.now) ≤ length self.now.half.now) × (length r.now * length r.now ≤ length w.old)
            × (length y.old ≡ length r.now) }
        ensures { Finds (length r.now) (damped_of (length r.now) mu self.now.largest (spread_of (length r.now) self.now.half.now)) r.now y.new result }
    {
        let rows = r.len();
        normal::damped(self.half, w, rows, mu, self.largest)?;
        y.copy_from_slice(r);
        solver::solve_dense(w, y, rows)
    }
}

// Why a try came to nothing, by its elimination. A refusal does not occur, since the shape is the fit's own.
impl From<Unsolved> for Reason {
    ghost from_gives = { λ e why. why ≡ reason_of e };

    fn from(e: Unsolved) -> Reason {
        match e {
            Unsolved::NoPivot(column) => Reason::NoPivot(column),
            Unsolved::NotFinite | Unsolved::Refused(_) => Reason::NotFinite,
        }
    }
}

// A try is taken where its cost is finite and less; then its coordinates and residuals are the fit's.
fn judge(x: &mut [f64], r: &mut [f64], xn: &[f64], rn: &[f64], fit: Fit) -> Result<Fit, Fit>
    requires { (length xn.now ≡ length x.old) × (length rn.now ≡ length r.old) × (fit.tries < 4096) }
    ensures { tried_of x.new r.new result ≡ judged (state_of x.old r.old fit) (some (trial_made xn.now rn.now)) }
{
    let cost = solver::norm2(rn);
    if floats::is_finite(cost) & (cost < fit.cost) {
        x.copy_from_slice(xn);
        r.copy_from_slice(rn);
        Ok(fit.taken(cost))
    } else {
        Err(fit.harder(Reason::NotLess))
    }
}

// A try from x and its residuals r: where it leaves the fit if it is taken, or where the fit stands if not. The step lies where the trial's
// residuals go.
pub(crate) fn one_try(
    p: &Task<'_>,
    system: &System<'_>,
    x: &mut [f64],
    r: &mut [f64],
    w: &mut [f64],
    xn: &mut [f64],
    rn: &mut [f64],
    fit: Fit,
) -> Result<Fit, Fit>
    requires { Shapes p.now system.now.j.now r.old × Matrices p.now system.now.half.now w.old × Trying x.old r.old xn.old rn.old × (fit.tries < 4096) }
    ensures { tried_of x.new r.new result
        ≡ try_of (problem_in p.now) system.now.j.now (spread_of (rows_in p.now) system.now.half.now) system.now.largest (state_of x.old r.old fit) }
{
    if let Err(e) = system.step(r, w, rn, fit.mu) {
        return Err(fit.harder(e.into()));
    }
    xn.copy_from_slice(x);
    let _ = normal::moved(system.j, rn, p.free, xn, r.len(), p.free.len());
    p.values(xn, rn);
    judge(x, r, xn, rn, fit)
}
