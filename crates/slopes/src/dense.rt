// The dense row that entries are added into.
ghost use Rattle.std.specs.Prelude.{◌≡◌, ◌+◌, ◌≤◌, ◌<◌};
ghost use Rattle.slopes.specs.Dense.{free_of, add_at};

use plane::Vec2;
use rows::Located;
use sketch::{FreeNo, PointNo};

// A row of n free coordinates, which starts at `base` in the lent slice, with where points stand and the position of each coordinate
// among the free ones.
#[derive(Clone, Copy)]
pub(crate) struct Dense<'a> {
    pub points: Located<'a>,
    pub columns: &'a [u8],
    pub n: usize,
    pub base: usize,
    ghost narrow: { n ≤ 80 },
    ghost within: { base ≤ 6400 },
}

impl Dense<'_> {
    ghost use Rattle.rows.specs.Entries.{entry};
    ghost use Rattle.slopes.specs.Arms.{cleared, pushed};

    fn free(self, c: usize) -> FreeNo
        ensures { result ≡ free_of self.entry.columns.now c }
    {
        FreeNo(usize::from(slices::get_or(self.columns, c, 255)))
    }

    fn add_at(self, jac: &mut [f64], k: FreeNo, d: f64)
        ensures { jac.new ≡ add_at self.entry.n self.entry.base k d jac.old }
    {
        if k.0 < self.n {
            let place = self.base + k.0;
            slices::put(jac, place, slices::get_or(jac, place, f64::NAN) + d);
        }
    }

    // Adds what the row's gradient is with respect to the two coordinates of a point.
    #[tactic(auto, unfolding(crate::specs::Dense::add_entry))]
    pub fn push(self, jac: &mut [f64], p: PointNo, d: Vec2)
        ensures { jac.new ≡ pushed self.entry jac.old (entry p d) }
    {
        let k = self.points.local(p);
        self.add_at(jac, self.free(2 * k), d.x);
        self.add_at(jac, self.free(2 * k + 1), d.y);
    }

    // A row starts from +0.0.
    pub fn clear(self, jac: &mut [f64])
        ensures { jac.new ≡ cleared self.entry jac.old }
    {
        // By index: the row may end past the slice, where nothing is stored.
        for c in 0..self.n {
            slices::put(jac, self.base + c, 0.0);
        }
    }
}

// Where an equation's rows go: the first of them, and room for the one after it.
#[derive(Clone, Copy)]
pub(crate) struct Rows<'a> {
    pub first: Dense<'a>,
    ghost room: { first.base ≤ 6320 },
}

impl<'a> Rows<'a> {
    pub fn second(self) -> Dense<'a>
        ensures points { result.points ≡ self.entry.first.points }
        ensures columns { result.columns ≡ self.entry.first.columns }
        ensures n { result.n ≡ self.entry.first.n }
        ensures base { result.base ≡ self.entry.first.base + self.entry.first.n }
    {
        let first = self.first;
        Dense {
            points: first.points,
            columns: first.columns,
            n: first.n,
            base: first.base + first.n,
        }
    }
}
