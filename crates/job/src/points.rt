// The points of a build in one array, x, y, x, y, ..: where they were drawn, and the placed ones at their places.
ghost use Rattle.std.specs.Prelude.{◌≡◌, ◌<◌};
ghost use Rattle.members.specs.Scale.{put_point};
ghost use Rattle.job.specs.Points.{drawn, placed_in};

use plane::Vec2;
use sketch::{Point, State};

fn put_point(out: &mut [f64; 80], p: usize, at: Vec2)
    requires { p < 40 }
    ensures { out.new ≡ put_point p at out.old }
{
    out[2 * p] = at.x;
    out[2 * p + 1] = at.y;
}

// Every point where it was drawn.
pub(crate) fn starts(points: &[Point; 40]) -> [f64; 80]
    ensures { result ≡ drawn points.now }
{
    let mut out = [0.0; 80];
    for (p, q) in points.iter().enumerate() {
        put_point(&mut out, p, q.start);
    }
    out
}

// Every placed point at its place.
pub(crate) fn place_all(points: &[Point; 40], out: &mut [f64; 80])
    ensures { out.new ≡ placed_in points.now out.old }
{
    for (p, q) in points.iter().enumerate() {
        if let State::Placed(at) = q.state {
            put_point(out, p, at);
        }
    }
}
