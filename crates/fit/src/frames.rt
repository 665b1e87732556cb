// A group set out for its fit.
ghost use Rattle.std.specs.Prelude.{◌≡◌};
ghost use Rattle.fit.specs.Frames.{frame_of};

use crate::Frame;
use groups::Grouping;
use sketch::Point;

pub fn set_out(points: &[Point; 40], gr: &Grouping, g: usize) -> Frame
    ensures { result ≡ frame_of points.now gr.now g }
{
    let listed = members::points_of(gr, g);
    let free = members::free(points, &listed);
    Frame {
        points: listed,
        equations: members::equations_of(gr, g),
        free,
        places: members::places(&listed),
        columns: members::columns(&free),
    }
}
