// A point's parent is itself or a lower point, so that a walk up ends at the lowest point of a tree, its root.
ghost use Rattle.std.specs.Prelude.{◌≡◌, map};
ghost use Rattle.groups.specs.Parents.{Falls};

use sketch::PointNo;

// The parent of each point.
#[derive(Clone, Copy)]
pub(crate) struct Parents {
    pub(crate) above: [usize; 40],
    ghost falls: { Falls above },
}

impl Parents {
    ghost use Rattle.groups.specs.Parents.{up, Leaves, root_of, join_to, join_all, alone};
    ghost use Rattle.groups.specs.Touches.{number};

    // Every point is its own root.
    #[tactic(auto, unfolding(loops::specs::Turns::up_to, loops::specs::Turns::turns, crate::specs::Parents::self_at))]
    pub(crate) fn alone() -> Parents
        ensures { result.above ≡ alone }
    {
        Parents {
            above: std::array::from_fn(|p| p),
        }
    }

    fn parent(&self, x: usize) -> usize
        ensures { result ≡ up self.now.above x }
    {
        slices::get_or(&self.above, x, x)
    }

    // The root of x. Each point on the way gets its parent's parent, so that the next walk is half as long.
    pub(crate) fn root(&mut self, x: usize) -> usize
        ensures { Leaves (root_of self.old.above x) self.new.above result }
    {
        let mut x = x;
        while self.parent(x) != x {
            let above = self.parent(self.parent(x));
            slices::put(&mut self.above, x, above);
            x = above;
        }
        x
    }

    // The trees of x and y become one: the larger root goes under the smaller.
    #[tactic(auto, unfolding(crate::specs::Parents::join_to))]
    fn join(&mut self, x: usize, y: usize)
        ensures { self.new.above ≡ join_to x self.old.above y }
    {
        let a = self.root(x);
        let b = self.root(y);
        slices::put(&mut self.above, a.max(b), a.min(b));
    }

    // Each point of an equation joins its first.
    pub(crate) fn join_all(&mut self, points: &[PointNo])
        ensures { self.new.above ≡ join_all (map number points.now) self.old.above }
    {
        if let [first, others @ ..] = points {
            for q in others {
                self.join(first.0, q.0);
            }
        }
    }
}
