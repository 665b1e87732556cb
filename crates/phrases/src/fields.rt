// The fields of equations and measures, each with the comma in front of it.
ghost use Rattle.std.specs.Prelude.{◌≡◌};
ghost use Rattle.phrases.specs.Fields.{with_place, number_at, point_at, line_at, value_at, either_at, axis_at, side_at, rad_at, contact_at, vec_at};

use plane::Vec2;
use sketch::{Contact, LineNo, PointNo, Rad};
use spelling::{eat, float, whole, word};

// A point's or a line's number.
#[tactic(auto, unfolding(crate::specs::Fields::number_at))]
pub fn number(s: &[u8], at: usize) -> Result<(usize, usize), usize>
    ensures { result ≡ number_at s.now at }
{
    whole(s, eat(s, at, b',')?)
}

// Two floats; in front of the first there is no comma.
#[tactic(auto, unfolding(crate::specs::Fields::vec_at, crate::specs::Fields::value_at))]
pub fn vec(s: &[u8], at: usize) -> Result<(Vec2, usize), usize>
    ensures { result ≡ vec_at s.now at }
{
    let (x, at) = float(s, at)?;
    let (y, at) = float(s, eat(s, at, b',')?)?;
    Ok((Vec2 { x, y }, at))
}

// What follows reads at a place that it moves on, so that the fields of a kind stand in its constructor.

#[tactic(auto, unfolding(crate::specs::Fields::point_at))]
pub(crate) fn point(s: &[u8], at: &mut usize) -> Result<PointNo, usize>
    ensures { with_place result at.new ≡ point_at s.now at.old }
{
    let (n, next) = number(s, *at)?;
    *at = next;
    Ok(PointNo(n))
}

#[tactic(auto, unfolding(crate::specs::Fields::line_at))]
pub(crate) fn line(s: &[u8], at: &mut usize) -> Result<LineNo, usize>
    ensures { with_place result at.new ≡ line_at s.now at.old }
{
    let (n, next) = number(s, *at)?;
    *at = next;
    Ok(LineNo(n))
}

#[tactic(auto, unfolding(crate::specs::Fields::value_at))]
pub(crate) fn value(s: &[u8], at: &mut usize) -> Result<f64, usize>
    ensures { with_place result at.new ≡ value_at s.now at.old }
{
    let (v, next) = float(s, eat(s, *at, b',')?)?;
    *at = next;
    Ok(v)
}

// One of two words, and what it stands for.
fn either<T: Copy>(s: &[u8], at: &mut usize, v: &[u8], a: T, w: &[u8], b: T) -> Result<T, usize>
    ensures { with_place result at.new ≡ either_at s.now at.old v.now a w.now b }
{
    if let Ok(next) = word(s, *at, v) {
        *at = next;
        return Ok(a);
    }
    *at = word(s, *at, w)?;
    Ok(b)
}

#[tactic(auto, unfolding(crate::specs::Fields::axis_at))]
pub(crate) fn axis(s: &[u8], at: &mut usize) -> Result<usize, usize>
    ensures { with_place result at.new ≡ axis_at s.now at.old }
{
    either(s, at, b",x", 0, b",y", 1)
}

#[tactic(auto, unfolding(crate::specs::Fields::side_at))]
pub(crate) fn side(s: &[u8], at: &mut usize) -> Result<f64, usize>
    ensures { with_place result at.new ≡ side_at s.now at.old }
{
    either(s, at, b",+", 1.0, b",-", -1.0)
}

// A radius by a point, or a plain one.
#[tactic(auto, unfolding(crate::specs::Fields::rad_at))]
pub(crate) fn rad(s: &[u8], at: &mut usize) -> Result<Rad, usize>
    ensures { with_place result at.new ≡ rad_at s.now at.old }
{
    if let Ok(next) = word(s, *at, b",p") {
        *at = next;
        return Ok(Rad::Point(point(s, at)?));
    }
    *at = word(s, *at, b",v")?;
    Ok(Rad::Value(value(s, at)?))
}

#[tactic(auto, unfolding(crate::specs::Fields::contact_at))]
pub(crate) fn contact(s: &[u8], at: &mut usize) -> Result<Contact, usize>
    ensures { with_place result at.new ≡ contact_at s.now at.old }
{
    if let Ok(next) = word(s, *at, b",o") {
        *at = next;
        return Ok(Contact::Outside);
    }
    Ok(Contact::Inside(side(s, at)?))
}
