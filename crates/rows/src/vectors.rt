// The small vectors that the rows write out, each with its own signs: a zero's sign depends on them.
ghost use Rattle.std.specs.Prelude.{◌≡◌};
ghost use Rattle.rows.specs.Kinds.{turned_down, turned_up, side_down, side_up, times, plus, along_axis, on_axis, first_sign, second_sign};

use plane::Vec2;
use sketch::Contact;

pub fn turned_down(v: Vec2) -> Vec2
    ensures { result ≡ turned_down v }
{
    Vec2 { x: v.y, y: -v.x }
}

pub fn turned_up(v: Vec2) -> Vec2
    ensures { result ≡ turned_up v }
{
    Vec2 { x: -v.y, y: v.x }
}

pub fn side_down(side: f64, v: Vec2) -> Vec2
    ensures { result ≡ side_down side v }
{
    Vec2 {
        x: side * v.y,
        y: -side * v.x,
    }
}

pub fn side_up(side: f64, v: Vec2) -> Vec2
    ensures { result ≡ side_up side v }
{
    Vec2 {
        x: -side * v.y,
        y: side * v.x,
    }
}

pub fn times_vec(k: f64, v: Vec2) -> Vec2
    ensures { result ≡ times k v }
{
    Vec2 {
        x: k * v.x,
        y: k * v.y,
    }
}

pub fn plus_vec(a: Vec2, b: Vec2) -> Vec2
    ensures { result ≡ plus a b }
{
    Vec2 {
        x: a.x + b.x,
        y: a.y + b.y,
    }
}

pub(crate) fn along_axis(axis: usize, v: Vec2) -> f64
    ensures { result ≡ along_axis axis v }
{
    if axis == 0 { v.x } else { v.y }
}

pub fn on_axis(axis: usize, v: f64) -> Vec2
    ensures { result ≡ on_axis axis v }
{
    if axis == 0 {
        Vec2 { x: v, y: 0.0 }
    } else {
        Vec2 { x: 0.0, y: v }
    }
}

// The signs of two radii in contact.
pub fn first_sign(contact: Contact) -> f64
    ensures { result ≡ first_sign contact }
{
    match contact {
        Contact::Outside => -1.0,
        Contact::Inside(s) => -s,
    }
}

pub fn second_sign(contact: Contact) -> f64
    ensures { result ≡ second_sign contact }
{
    match contact {
        Contact::Outside => -1.0,
        Contact::Inside(s) => s,
    }
}
