// The points in the coordinates of the equations, and where each of them stands there.
ghost use Rattle.std.specs.Prelude.{◌≡◌, ◌<◌, min};
ghost use Rattle.plate.specs.Scale.{scale_at, all_scaled_of, in_order};

use plane::Vec2;

// The two coordinates of point p.
fn scale(x: &mut [f64], p: usize, centre: Vec2, size: f64, points: &[f64])
    requires { p < 40 }
    ensures { x.new ≡ scale_at centre size points.now p x.old }
{
    let q = Vec2 {
        x: slices::get_or(points, 2 * p, f64::NAN),
        y: slices::get_or(points, 2 * p + 1, f64::NAN),
    };
    let s = plane::in_units(centre, size, q);
    slices::put(x, 2 * p, s.x);
    slices::put(x, 2 * p + 1, s.y);
}

// The first n points, and at most 40.
pub fn scaled(centre: Vec2, size: f64, points: &[f64], n: usize) -> [f64; 80]
    ensures { result ≡ all_scaled_of centre size (min n 40) points.now }
{
    let mut x = [0.0; 80];
    // By index: a point's two places are written together, and what is written through `chunks_mut` no proof knows afterwards.
    for p in 0..n.min(40) {
        scale(&mut x, p, centre, size, points);
    }
    x
}

// All points are in the one group, so each stands at its own number.
pub fn in_order() -> [u8; 40]
    ensures { result ≡ in_order }
{
    let mut places = [0; 40];
    for p in 0..40 {
        places[p] = p as u8;
    }
    places
}
