// The points that the equations touch.
ghost use Rattle.std.specs.Prelude.{◌≡◌, length, map};
ghost use Rattle.groups.specs.Tied.{tie_all, tied_of};
ghost use Rattle.groups.specs.Touches.{number, touched_by};
ghost use Rattle.sketch.specs.Parts.{equations_of};

use sketch::{Build, PointNo, involved};

#[tactic(auto, unfolding(crate::specs::Tied::tie_all, crate::specs::Tied::tie_to))]
fn tie_all(s: &mut [bool], points: &[PointNo])
    ensures { s.new ≡ tie_all (map number points.now) s.old }
{
    for q in points {
        slices::put(s, q.0, true);
    }
}

// Whether an equation touches each point.
pub fn tied_points(b: &Build) -> [bool; 40]
    ensures { result ≡ tied_of (touched_by b.now) (length (equations_of b.now)) }
{
    let mut s = [false; 40];
    for a in b.equations() {
        let t = involved(a.equation, &b.lines);
        tie_all(&mut s, t.points());
    }
    s
}
