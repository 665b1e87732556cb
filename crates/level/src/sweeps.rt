// The sweeps of one axis: over the equations, which join runs, and over the points, which take their root's coordinate.
ghost use Rattle.std.specs.Prelude.{◌≡◌, ◌+◌, ◌*◌, ◌<◌, get_or};
ghost use Rattle.std.specs.Float.{nan};
ghost use Rattle.level.specs.Fixed.{fixed_of};
ghost use Rattle.level.specs.Level.{level_of};

use crate::parents::{find, join};
use sketch::{Active, Build, Equation, Point};

// One axis, 0 for x and 1 for y, and which points are fixed.
#[derive(Clone, Copy)]
struct Axis {
    number: usize,
    fixed: [bool; 40],
    ghost of_two: { number < 2 },
}

impl Axis {
    ghost use Rattle.std.specs.Prelude.{min};
    ghost use Rattle.level.specs.Level.{join_equation, joined, level_point, level_points, level_axis};
    ghost use Rattle.level.specs.Parents.{Leaves};
    ghost use Rattle.sketch.specs.Parts.{equations_of};

    // A horizontal or vertical of this axis joins its two points.
    #[tactic(auto, unfolding(crate::specs::Level::join_equation))]
    fn join_equation(&self, parents: &mut [usize], active: &Active)
        ensures { parents.new ≡ join_equation self.now.number self.now.fixed parents.old active.now }
    {
        if let Equation::Level(a, b, axis) = active.equation {
            if axis == self.number {
                join(parents, &self.fixed, a.0, b.0);
            }
        }
    }

    #[tactic(auto, unfolding(crate::specs::Level::joined))]
    fn join_equations(&self, parents: &mut [usize], equations: &[Active])
        ensures { parents.new ≡ joined self.now.number self.now.fixed equations.now parents.old }
    {
        for a in equations {
            self.join_equation(parents, a);
        }
    }

    // A coordinate of point p, and a NaN where the slice ends before it.
    fn at(&self, points: &[f64], p: usize) -> f64
        ensures { result ≡ get_or points.now (2 * p + self.now.number) nan }
    {
        if p < points.len() {
            slices::get_or(points, 2 * p + self.number, f64::NAN)
        } else {
            f64::NAN
        }
    }

    // Point p takes its root's coordinate, unless it is fixed.
    #[tactic(auto, unfolding(crate::specs::Level::level_point))]
    fn level_point(&self, parents: &mut [usize], points: &mut [f64], p: usize)
        requires { p < 40 }
        ensures { Leaves (level_point self.now.number self.now.fixed p (record { parents = parents.old; answer = points.old })) parents.new points.new }
    {
        let root = find(parents, p);
        if (root != p) & !self.fixed[p] {
            let v = self.at(points, root);
            slices::put(points, 2 * p + self.number, v);
        }
    }

    fn level_points(&self, parents: &mut [usize], points: &mut [f64], n: usize)
        ensures { points.new ≡ level_points self.now.number self.now.fixed (min n 40) parents.old points.old }
    {
        for p in 0..n.min(40) {
            self.level_point(parents, points, p);
        }
    }

    #[tactic(auto, unfolding(crate::specs::Level::level_axis))]
    fn level(&self, b: &Build, points: &mut [f64])
        ensures { points.new ≡ level_axis self.now.fixed (equations_of b.now) (min b.now.point_count 40) self.now.number points.old }
    {
        let mut parents: [usize; 40] = std::array::from_fn(|p| p);
        self.join_equations(&mut parents, b.equations());
        self.level_points(&mut parents, points, b.point_count);
    }
}

fn fixed_points(points: &[Point; 40]) -> [bool; 40]
    ensures { result ≡ fixed_of points.now }
{
    points.map(|p| p.state.is_fixed())
}

// The points x, y, x, y, .. of a build, levelled.
pub fn level(b: &Build, points: &mut [f64])
    ensures { points.new ≡ level_of b.now points.old }
{
    let fixed = fixed_points(&b.points);
    for number in 0..2 {
        let axis = Axis { number, fixed };
        axis.level(b, points);
    }
}
