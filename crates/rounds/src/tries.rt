// The damping attempts of a round.
ghost use Rattle.std.specs.Prelude.{◌≡◌, ◌≤◌};
ghost use Rattle.rounds.specs.Inside.{begun_fit, problem_in, tries_at, Shapes, Matrices, Trying};
ghost use Rattle.rounds.specs.Problem.{state_of, tried_of};

use crate::Fit;
use crate::attempt::{System, one_try};
use crate::task::Task;

// At most twelve tries with the Jacobian j, until one is taken: where that leaves the fit, or where it stands if none is. The half of the
// Jacobian's product goes to h.
#[tactic(auto, using(crate::proofs::Turn::tries_done))]
pub(crate) fn all_tries(
    p: &Task<'_>,
    j: &[f64],
    x: &mut [f64],
    r: &mut [f64],
    h: &mut [f64],
    w: &mut [f64],
    xn: &mut [f64],
    rn: &mut [f64],
    fit: Fit,
) -> Result<Fit, Fit>
    requires { Shapes p.now j.now r.old × Matrices p.now h.old w.old × Trying x.old r.old xn.old rn.old × (fit.iterations ≤ 200) × (fit.tries ≤ 2400) }
    ensures { tried_of x.new r.new result ≡ tries_at (problem_in p.now) j.now (state_of x.old r.old (begun_fit fit)) }
{
    let rows = r.len();
    // Neither call refuses: the shapes are the fit's own.
    let _ = normal::product(j, h, rows, p.free.len());
    let system = System {
        j,
        half: h,
        largest: normal::diag_max(h, rows).unwrap_or(0.0),
    };
    let mut f = fit.begun();
    for _ in 0..Fit::MAX_TRIES {
        match one_try(p, &system, x, r, w, xn, rn, f) {
            Ok(taken) => return Ok(taken),
            Err(left) => f = left,
        }
    }
    Err(f)
}
