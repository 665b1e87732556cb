// From the coordinates as drawn to units of size about the centre, and back.
ghost use Rattle.std.specs.Prelude.{◌≡◌, ◌<◌};
ghost use Rattle.members.specs.Lists.{numbers_of};
ghost use Rattle.members.specs.Movable.{points_at};
ghost use Rattle.members.specs.Scale.{standing, scaled_of, start_in, move_by, moved, back_to, unscale_to, unscale_of};

use crate::Points;
use crate::movable::NOWHERE;
use plane::{Vec2, in_units};
use sketch::{Point, State};

fn stands(p: Point) -> Vec2
    ensures { result ≡ standing p.state p.start }
{
    match p.state {
        State::Free | State::Kept => p.start,
        State::Placed(at) => at,
    }
}

// Where the fit starts a point: at its place, or where it was drawn.
pub fn scaled(p: Point, centre: Vec2, size: f64) -> Vec2
    ensures { result ≡ scaled_of centre size p }
{
    in_units(centre, size, stands(p))
}

// Where the fit of a group's points starts, at the head of x.
pub fn start(points: &[Point; 40], centre: Vec2, size: f64, l: &Points, x: &mut [f64])
    ensures { x.new ≡ start_in centre size (points_at points.now (numbers_of l.now.0)) x.old }
{
    let listed = l.0.numbers();
    if 2 * listed.len() <= x.len() {
        // Two places are written for each point; what is written through `chunks_mut` no proof knows afterwards.
        for (k, p) in listed.iter().enumerate() {
            let s = scaled(slices::get_or(points, *p, NOWHERE), centre, size);
            x[2 * k] = s.x;
            x[2 * k + 1] = s.y;
        }
    }
}

// How far a coordinate has moved: not at all where it is what it started from, so that scaling moves nothing.
#[tactic(auto, unfolding(crate::specs::Scale::move_by))]
fn move_by(size: f64, x: f64, s: f64) -> f64
    ensures { result ≡ move_by size x s }
{
    if x == s { 0.0 } else { (x - s) * size }
}

fn moved_by(size: f64, start: Vec2, s: Vec2, x: Vec2) -> Vec2
    ensures { result ≡ moved size start s x }
{
    Vec2 {
        x: start.x + move_by(size, x.x, s.x),
        y: start.y + move_by(size, x.y, s.y),
    }
}

fn back(centre: Vec2, size: f64, p: Point, x: Vec2) -> Vec2
    ensures { result ≡ back_to centre size p.state p.start x }
{
    match p.state {
        State::Free | State::Kept => moved_by(size, p.start, in_units(centre, size, p.start), x),
        State::Placed(at) => at,
    }
}

// The k-th of a group's points, p, goes to its two places.
#[tactic(auto, unfolding(crate::specs::Scale::unscale_to))]
fn unscale_to(
    points: &[Point; 40],
    centre: Vec2,
    size: f64,
    p: usize,
    x: &[f64],
    k: usize,
    out: &mut [f64],
)
    requires { k < 40 }
    ensures { out.new ≡ unscale_to points.now centre size p x.now k out.old }
{
    if let Some(q) = points.get(p) {
        let at = Vec2 {
            x: slices::get_or(x, 2 * k, f64::NAN),
            y: slices::get_or(x, 2 * k + 1, f64::NAN),
        };
        let r = back(centre, size, *q, at);
        slices::put(out, 2 * p, floats::handed_out(r.x));
        slices::put(out, 2 * p + 1, floats::handed_out(r.y));
    }
}

// The listed points back at their size, among all points: a placed point at its place, any other as far from its start as
// it has moved.
pub fn unscale(
    points: &[Point; 40],
    centre: Vec2,
    size: f64,
    l: &Points,
    x: &[f64],
    out: &mut [f64],
)
    ensures { out.new ≡ unscale_of points.now centre size (numbers_of l.now.0) x.now out.old }
{
    for (k, p) in l.0.numbers().iter().enumerate() {
        unscale_to(points, centre, size, *p, x, k, out);
    }
}
