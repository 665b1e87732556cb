// The freedom of the points in no group.
ghost use Rattle.std.specs.Prelude.{◌≡◌, ◌≤◌};
ghost use Rattle.job.specs.Groups.{loose_count};

use groups::{Grouping, NO_GROUP};
use sketch::Build;

// How many points of the build are free and in no group.
pub(crate) fn loose(b: &Build, gr: &Grouping) -> usize
    ensures count { result ≡ loose_count b.now gr.now }
    ensures few { result ≤ b.now.point_count }
{
    let mut k = 0;
    for (p, q) in b.points().iter().enumerate() {
        if (slices::get_or(&gr.of_point, p, 0) == NO_GROUP) & !q.state.is_fixed() {
            k += 1;
        }
    }
    k
}
