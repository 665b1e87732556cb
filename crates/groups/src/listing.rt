// From the roots to the groups: each root gets a number when the first of its points comes.
ghost use Rattle.std.specs.Prelude.{◌≡◌, ◌<◌, map};
ghost use Rattle.groups.specs.Listed.{list_points, group_of};
ghost use Rattle.groups.specs.Parents.{Leaves};
ghost use Rattle.groups.specs.Touches.{number};

use crate::NO_GROUP;
use crate::parents::Parents;
use sketch::PointNo;

// Groups while their points are being listed: beside them, for each root, its group's number.
#[derive(Clone, Copy)]
pub(crate) struct Listing {
    pub(crate) index: [usize; 40],
    pub(crate) of_point: [usize; 40],
    pub(crate) count: usize,
}

impl Listing {
    ghost use Rattle.groups.specs.Listed.{numbered_of, entered_of};

    // The root r has a number.
    #[tactic(auto, unfolding(crate::specs::Listed::numbered_of))]
    fn number(&mut self, r: usize)
        requires { (r < 40) × (self.old.count < 40) }
        ensures { self.new ≡ numbered_of r self.old }
    {
        if self.index[r] == NO_GROUP {
            self.index[r] = self.count;
            self.count += 1;
        }
    }

    // Point q is listed in the group of its root r.
    #[tactic(auto, unfolding(crate::specs::Listed::entered_of))]
    fn enter(&mut self, r: usize, q: usize)
        requires { (r < 40) × (q < 40) × (self.old.count < 40) }
        ensures { self.new ≡ entered_of r q self.old }
    {
        self.number(r);
        self.of_point[q] = self.index[r];
    }
}

// Every tied point, rising, so that the groups are numbered by their lowest points.
pub(crate) fn list_points(p: &mut Parents, tied: &[bool; 40]) -> Listing
    ensures { Leaves (list_points tied.now p.old.above) p.new.above result }
{
    let mut s = Listing {
        index: [NO_GROUP; 40],
        of_point: [NO_GROUP; 40],
        count: 0,
    };
    for (q, is_tied) in tied.iter().enumerate() {
        if *is_tied {
            let r = p.root(q);
            s.enter(r, q);
        }
    }
    s
}

// The group of an equation is its first point's.
pub(crate) fn group_of(p: &mut Parents, index: &[usize; 40], points: &[PointNo]) -> usize
    ensures { Leaves (group_of index.now (map number points.now) p.old.above) p.new.above result }
{
    let Some(owner) = points.first() else {
        return NO_GROUP;
    };
    slices::get_or(index, p.root(owner.0), NO_GROUP)
}
