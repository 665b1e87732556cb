// The fit of a frame with some of its equations.
ghost use Rattle.std.specs.Prelude.{◌≡◌};
ghost use Rattle.fit.specs.Promise.{FitsChosen};

use crate::{Fitted, Frame, NotFitted};
use members::Equations;
use rounds::Posed;
use sketch::Build;

// The fit of the frame with the chosen equations. Only what has converged is shown.
pub fn fit(
    b: &Build,
    f: &Frame,
    chosen: &Equations,
    p: &mut [f64],
    q: &mut [f64],
    r: &mut [f64],
) -> Result<Fitted, NotFitted>
    ensures { FitsChosen b.now f.now chosen.now p.old q.old r.old p.new q.new r.new result }
{
    let mut x = [0.0; 80];
    members::start(&b.points, b.centre, b.size, &f.points, &mut x);
    let n = 2 * f.points.0.numbers().len();
    // Looked at for the proof alone: no more are chosen, and no more are free, than there are places.
    let _chosen = chosen.0.numbers();
    let _free = f.free.0.numbers();
    let posed = Posed {
        equations: &b.equations,
        lines: &b.lines,
        chosen,
        places: &f.places,
        columns: &f.columns,
        free: &f.free,
    };
    let s = rounds::solve(&posed, &mut x[..n], p, q, r);
    let iterations = s.iterations;
    let tries = s.tries;
    match s.ending {
        Ok(()) => Ok(Fitted {
            x,
            iterations,
            tries,
        }),
        Err(why) => Err(NotFitted {
            why,
            iterations,
            tries,
        }),
    }
}
