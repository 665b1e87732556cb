// Which points are fixed, and the coordinates that a fit may move.
ghost use Rattle.std.specs.Prelude.{◌≡◌};
ghost use Rattle.members.specs.Lists.{numbers_of};
ghost use Rattle.members.specs.Movable.{ListsCoordinates, fixed_of, points_at, free_from};

use crate::{Coordinates, Listed, Points};
use plane::Vec2;
use sketch::{Point, State};

// What stands where there is no point: one that is kept at the origin, so that nothing moves it.
pub(crate) const NOWHERE: Point = Point {
    start: Vec2 { x: 0.0, y: 0.0 },
    state: State::Kept,
};

// Kept where it was drawn, or placed.
pub fn fixed(p: Point) -> bool
    ensures { result ≡ fixed_of p }
{
    p.state.is_fixed()
}

// The free coordinates of a group's points.
pub fn free(points: &[Point; 40], l: &Points) -> Coordinates
    ensures { ListsCoordinates result (free_from 0 (points_at points.now (numbers_of l.now.0))) }
{
    let mut f = Listed::none();
    for (k, p) in l.0.numbers().iter().enumerate() {
        if !fixed(slices::get_or(points, *p, NOWHERE)) {
            f.push(2 * k);
            f.push(2 * k + 1);
        }
    }
    Coordinates(f)
}
