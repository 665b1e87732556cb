// The whole: the points of each equation joined, the points listed by their roots, then the equations.
ghost use Rattle.std.specs.Prelude.{◌≡◌, length};
ghost use Rattle.groups.specs.Listed.{list_equations, groups_of};
ghost use Rattle.groups.specs.Parents.{joined};
ghost use Rattle.groups.specs.Touches.{touched_by};
ghost use Rattle.sketch.specs.Parts.{equations_of};

use crate::listing::{group_of, list_points};
use crate::parents::Parents;
use crate::tied::tied_points;
use crate::{Grouping, NO_GROUP};
use sketch::{Build, involved};

fn join_equations(p: &mut Parents, b: &Build)
    ensures { p.new.above ≡ joined (touched_by b.now) (length (equations_of b.now)) p.old.above }
{
    for a in b.equations() {
        let t = involved(a.equation, &b.lines);
        p.join_all(t.points());
    }
}

// Each equation goes to the group of its first point.
fn list_equations(p: &mut Parents, index: &[usize; 40], b: &Build) -> [usize; 40]
    ensures { result ≡ (list_equations index.now (touched_by b.now) (length (equations_of b.now)) p.old.above).answer }
{
    let mut of = [NO_GROUP; 40];
    for (k, a) in b.equations().iter().enumerate() {
        let t = involved(a.equation, &b.lines);
        slices::put(&mut of, k, group_of(p, index, t.points()));
    }
    of
}

// The groups of a build, in the order of their lowest points.
#[tactic(auto, unfolding(crate::specs::Listed::groups_of))]
pub fn groups(b: &Build) -> Grouping
    ensures { result ≡ groups_of (touched_by b.now) (length (equations_of b.now)) }
{
    let mut parents = Parents::alone();
    join_equations(&mut parents, b);
    let points = list_points(&mut parents, &tied_points(b));
    let of_equation = list_equations(&mut parents, &points.index, b);
    Grouping {
        of_point: points.of_point,
        of_equation,
        count: points.count,
    }
}
