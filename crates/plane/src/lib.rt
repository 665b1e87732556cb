// Points, vectors and directions of the plane, by value, as the last lines of equations.rs have them. Nothing is refused:
// a zero length gives NaN or infinite directions.

#![tactic(auto)]

ghost use Rattle.std.specs.Prelude.{◌≡◌};
ghost use Rattle.plane.specs.Vectors.{sub_of, neg_of, dot_of, cross_of, norm_of, unit_from_of, across_of, in_units};

#[derive(Clone, Copy)]
pub struct Vec2 {
    pub x: f64,
    pub y: f64,
}

// A unit direction, and the length that it was divided by.
#[derive(Clone, Copy)]
pub struct Dir {
    pub u: Vec2,
    pub len: f64,
}

pub fn sub(a: Vec2, b: Vec2) -> Vec2
    ensures { result ≡ sub_of a b }
{
    Vec2 {
        x: a.x - b.x,
        y: a.y - b.y,
    }
}

pub fn neg(a: Vec2) -> Vec2
    ensures { result ≡ neg_of a }
{
    Vec2 { x: -a.x, y: -a.y }
}

pub fn dot(a: Vec2, b: Vec2) -> f64
    ensures { result ≡ dot_of a b }
{
    a.x * b.x + a.y * b.y
}

pub fn cross(a: Vec2, b: Vec2) -> f64
    ensures { result ≡ cross_of a b }
{
    a.x * b.y - a.y * b.x
}

#[tactic(auto, unfolding(crate::specs::Vectors::norm_of))]
pub fn norm(a: Vec2) -> f64
    ensures { result ≡ norm_of a }
{
    root::sqrt(dot(a, a))
}

// The unit vector from a to b, and the distance.
#[tactic(auto, unfolding(crate::specs::Vectors::unit_from_of))]
pub fn unit_from(a: Vec2, b: Vec2) -> Dir
    ensures { result ≡ unit_from_of a b }
{
    let d = sub(b, a);
    let len = norm(d);
    Dir {
        u: Vec2 {
            x: d.x / len,
            y: d.y / len,
        },
        len,
    }
}

// The gradient with respect to the far end of a unit vector w of a difference of length len, given the gradient gw with
// respect to w.
#[tactic(auto, unfolding(crate::specs::Vectors::across_of))]
pub fn across(w: Vec2, gw: Vec2, len: f64) -> Vec2
    ensures { result ≡ across_of w gw len }
{
    let k = dot(gw, w);
    Vec2 {
        x: (gw.x - w.x * k) / len,
        y: (gw.y - w.y * k) / len,
    }
}

// q in units of size from the centre: one difference and one quotient for each coordinate.
pub fn in_units(centre: Vec2, size: f64, q: Vec2) -> Vec2
    ensures { result ≡ in_units centre size q }
{
    Vec2 {
        x: (q.x - centre.x) / size,
        y: (q.y - centre.y) / size,
    }
}
