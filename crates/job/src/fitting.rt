// One group: its fit, and what is taken over from it.
ghost use Rattle.std.specs.Prelude.{◌≡◌, ◌+◌, ◌≤◌, ◌<◌, IfOk};
ghost use Rattle.job.specs.Groups.{taken_of, failing_by, result_of, step_of};

use crate::{Area, Doing, Failing};
use answer::GroupFit;
use fit::{Fitted, Frame, NotFitted};
use groups::Grouping;
use sketch::Build;

// The fit t of group g taken over.
fn taken(
    b: &Build,
    f: &Frame,
    g: usize,
    t: &Fitted,
    mut d: Doing,
    p: &mut Area,
    q: &mut Area,
    r: &mut Area,
) -> Doing
    requires { (g < 40) × (d.freedom ≤ 3200) }
    ensures taken { result ≡ taken_of b.now f.now g t.now.x t.now.iterations t.now.tries d }
    ensures freedom { result.freedom ≤ d.freedom + 80 }
{
    // A build that passes the check has no group with too many rows.
    let freedom = fit::freedom(b, f, &t.x, p, q, r).unwrap_or(0);
    members::unscale(&b.points, b.centre, b.size, &f.points, &t.x, &mut d.points);
    d.freedom += freedom;
    d.groups[g] = GroupFit {
        lowest: f.points.0.items[0],
        freedom,
        iterations: t.iterations,
        tries: t.tries,
        code: 0,
        column: 0,
    };
    d
}

// What is answered of a group whose fit ended so: why it failed, by document 02's code.
fn failing(f: &Frame, u: NotFitted) -> GroupFit
    ensures { result ≡ failing_by f.now u }
{
    GroupFit {
        lowest: f.points.0.items[0],
        freedom: 0,
        iterations: u.iterations,
        tries: u.tries,
        code: rounds::code(Err(u.why)),
        column: rounds::named_column(Err(u.why)),
    }
}

// Group g fitted, after those before it.
pub(crate) fn one_group(
    b: &Build,
    gr: &Grouping,
    g: usize,
    d: Doing,
    p: &mut Area,
    q: &mut Area,
    r: &mut Area,
) -> Result<Doing, Failing>
    requires { (g < 40) × (d.freedom ≤ 3200) }
    ensures step { result_of result ≡ step_of b.now gr.now g d }
    ensures freedom { IfOk result (λ e. e.freedom ≤ d.freedom + 80) }
{
    let f = fit::set_out(&b.points, gr, g);
    match fit::fit(b, &f, &f.equations, p, q, r) {
        Ok(t) => Ok(taken(b, &f, g, &t, d, p, q, r)),
        Err(u) => Err(Failing {
            group: g,
            failure: failing(&f, u),
        }),
    }
}
