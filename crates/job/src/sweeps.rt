// The groups one after another.
ghost use Rattle.std.specs.Prelude.{◌≡◌, ◌≤◌, IfOk};
ghost use Rattle.job.specs.Groups.{begin, groups_from, result_of};

use crate::fitting::one_group;
use crate::points::starts;
use crate::{Area, Doing, Failing};
use answer::GroupFit;
use groups::Grouping;
use sketch::Build;

#[tactic(auto, unfolding(crate::specs::Groups::begin))]
fn begun(b: &Build) -> Doing
    ensures { result ≡ begin b.now }
{
    Doing {
        points: starts(&b.points),
        freedom: 0,
        groups: [GroupFit::default(); 40],
    }
}

// The first n groups, until one does not converge.
pub(crate) fn all_groups(
    b: &Build,
    gr: &Grouping,
    n: usize,
    p: &mut Area,
    q: &mut Area,
    r: &mut Area,
) -> Result<Doing, Failing>
    requires { n ≤ 40 }
    ensures groups { result_of result ≡ groups_from b.now gr.now n 0 (begin b.now) }
    ensures freedom { IfOk result (λ d. d.freedom ≤ 3200) }
{
    let mut d = begun(b);
    for g in 0..n {
        d = one_group(b, gr, g, d, p, q, r)?;
    }
    Ok(d)
}
