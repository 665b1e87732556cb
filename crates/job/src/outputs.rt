// What is handed out: the points, placed and levelled, and the measures taken from them.
ghost use Rattle.std.specs.Prelude.{◌≡◌, ◌+◌, ◌*◌, ◌≤◌, length};
ghost use Rattle.job.specs.Points.{handed_out};

use crate::points::place_all;
use sketch::Build;

// Every NaN among the points has been handed out by `unscale`, and levelling copies, so here the points are only copied.
pub(crate) fn hand_out(b: &Build, fitted: &[f64; 80], out: &mut [f64])
    requires { (b.now.point_count ≤ 40) × (b.now.measure_count ≤ 20) × (2 * b.now.point_count + b.now.measure_count ≤ length out.old) }
    ensures { out.new ≡ handed_out b.now fitted.now out.old }
{
    let n = 2 * b.point_count;
    // Looked at for the proof alone: there are as many measures as the count says.
    let _measures = &b.measures[..b.measure_count];
    let mut points = *fitted;
    place_all(&b.points, &mut points);
    level::level(b, &mut points[..n]);
    out[..n].copy_from_slice(&points[..n]);
    measures::measures(b, &points[..n], &mut out[n..]);
}
