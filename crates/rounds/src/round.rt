// The rounds.
ghost use Rattle.std.specs.Prelude.{◌≡◌, ◌≤◌, length};
ghost use Rattle.solver.specs.Sums.{norm2_of};
ghost use Rattle.rounds.specs.Inside.{Shapes, Matrices, Own, problem_in, jacobian_in, started_fit, step_of, ended_of};
ghost use Rattle.rounds.specs.Problem.{state_of};
ghost use Rattle.rounds.specs.Solve.{within, rounds_of};

use crate::Fit;
use crate::task::Task;
use crate::tries::all_tries;
use std::ops::ControlFlow;

// Every residual is within the tolerance.
pub(crate) fn within(r: &[f64]) -> bool
    ensures { result ≡ within r.now }
{
    floats::max_abs(r) <= Fit::TOLERANCE
}

// What a round leads to: the end, converged or failed, or the next round. Within the tolerance it is done if no try was taken or the
// polishing steps are spent; outside it has failed if no try was taken.
fn after_round(fitted: bool, tried: Result<Fit, Fit>) -> ControlFlow<Result<Fit, Fit>, Fit>
    ensures { result ≡ step_of fitted tried }
{
    match (fitted, tried) {
        (true, Ok(fit)) if 0 < fit.polish => ControlFlow::Continue(fit.polished()),
        (true, Ok(fit) | Err(fit)) => ControlFlow::Break(Ok(fit)),
        (false, Ok(fit)) => ControlFlow::Continue(fit),
        (false, Err(fit)) => ControlFlow::Break(Err(fit)),
    }
}

// At most 200 rounds; after the last the tolerance decides. The residuals r are those at x already, so that only the Jacobian is worked
// out anew.
pub(crate) fn all_rounds(
    p: &Task<'_>,
    x: &mut [f64],
    r: &mut [f64],
    j: &mut [f64],
    h: &mut [f64],
    w: &mut [f64],
) -> Result<Fit, Fit>
    requires { Shapes p.now j.old r.old × Matrices p.now h.old w.old × (length x.old ≤ 80) × Own p.now x.old r.old }
    ensures { ended_of x.new result ≡ rounds_of (problem_in p.now) (jacobian_in p.now) 200 (state_of x.old r.old (started_fit (norm2_of r.old))) }
{
    let mut xn = [0.0; 80];
    let xn = &mut xn[..x.len()];
    let mut rn = [0.0; 80];
    let rn = &mut rn[..r.len()];
    let mut f = Fit::start(solver::norm2(r));
    for _ in 0..Fit::MAX_ITER {
        p.jacobian(x, j);
        let tried = all_tries(p, j, x, r, h, w, xn, rn, f);
        match after_round(within(r), tried) {
            ControlFlow::Continue(next) => f = next,
            ControlFlow::Break(ended) => return ended,
        }
    }
    if within(r) { Ok(f) } else { Err(f) }
}
