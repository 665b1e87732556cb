// The entries that the arms share.
ghost use Rattle.std.specs.Prelude.{◌≡◌};
ghost use Rattle.rows.specs.Kinds.{through1_of, through2_of, radius_entries};
ghost use Rattle.rows.specs.Located.{seen};
ghost use Rattle.slopes.specs.Arms.{added};

use crate::dense::Dense;
use plane::{Dir, Vec2};
use rows::vectors::times_vec;
use sketch::{Line, PointNo, Rad};

// A line, its direction, and the gradient with respect to that.
pub(crate) type Leg = (Line, Dir, Vec2);

impl Dense<'_> {
    // The ends of a line, given the gradient with respect to its direction.
    pub fn through1(self, jac: &mut [f64], l: Line, d: Dir, gu: Vec2)
        ensures { jac.new ≡ added self.entry jac.old (through1_of l d gu) }
    {
        let gb = plane::across(d.u, gu, d.len);
        self.push(jac, l.to, gb);
        self.push(jac, l.from, plane::neg(gb));
    }

    pub fn through2(self, jac: &mut [f64], i: Leg, j: Leg)
        ensures { jac.new ≡ added self.entry jac.old (through2_of i.0 i.1 i.2 j.0 j.1 j.2) }
    {
        self.through1(jac, i.0, i.1, i.2);
        self.through1(jac, j.0, j.1, j.2);
    }

    // The gradient of a circle's radius around c, times `scale`.
    pub fn radius(self, jac: &mut [f64], rad: Rad, c: PointNo, scale: f64)
        ensures { jac.new ≡ added self.entry jac.old (radius_entries (seen self.entry.points) rad c scale) }
    {
        if let Rad::Point(p) = rad {
            let d = self.points.unit_from(c, p);
            self.push(jac, p, times_vec(scale, d.u));
            self.push(jac, c, times_vec(-scale, d.u));
        }
    }
}
