// Where points and lines are at given coordinates.
ghost use Rattle.std.specs.Prelude.{◌≡◌, ◌<◌};
ghost use Rattle.plane.specs.Vectors.{sub_of, unit_from_of};

use crate::vectors::{plus_vec, times_vec};
use plane::{Dir, Vec2};
use sketch::{Line, PointNo};

// Where points stand: each point's place among the group's points, and the coordinates of these, x before y.
#[derive(Clone, Copy)]
pub struct Located<'a> {
    pub places: &'a [u8],
    pub x: &'a [f64],
}

impl Located<'_> {
    ghost use Rattle.rows.specs.Kinds.{middle_of};
    ghost use Rattle.rows.specs.Located.{local_of, seen, dir_of};

    // A point's place among the group's points.
    pub fn local(self, p: PointNo) -> usize
        ensures place { result ≡ local_of self.entry.places.now p }
        ensures byte { result < 256 }
    {
        usize::from(slices::get_or(self.places, p.0, 0))
    }

    pub(crate) fn at(self, p: PointNo) -> Vec2
        ensures { result ≡ seen self.entry p }
    {
        let k = self.local(p);
        Vec2 {
            x: slices::get_or(self.x, 2 * k, f64::NAN),
            y: slices::get_or(self.x, 2 * k + 1, f64::NAN),
        }
    }

    // The direction from a to b, and the distance.
    pub fn unit_from(self, a: PointNo, b: PointNo) -> Dir
        ensures { result ≡ unit_from_of (seen self.entry a) (seen self.entry b) }
    {
        plane::unit_from(self.at(a), self.at(b))
    }

    // The distance alone, where no direction is asked for.
    #[tactic(auto, unfolding(plane::specs::Vectors::unit_from_of))]
    pub(crate) fn apart(self, a: PointNo, b: PointNo) -> f64
        ensures { result ≡ (unit_from_of (seen self.entry a) (seen self.entry b)).len }
    {
        plane::norm(self.offset(a, b))
    }

    // The vector from a to b.
    pub fn offset(self, a: PointNo, b: PointNo) -> Vec2
        ensures { result ≡ sub_of (seen self.entry b) (seen self.entry a) }
    {
        plane::sub(self.at(b), self.at(a))
    }

    // The vector from a to the middle of p and q.
    pub fn middle(self, p: PointNo, q: PointNo, a: PointNo) -> Vec2
        ensures { result ≡ middle_of (seen self.entry) p q a }
    {
        let m = times_vec(0.5, plus_vec(self.at(p), self.at(q)));
        plane::sub(m, self.at(a))
    }

    // The direction and the length of a line.
    pub fn dir(self, l: Line) -> Dir
        ensures { result ≡ dir_of (seen self.entry) l }
    {
        self.unit_from(l.from, l.to)
    }
}
