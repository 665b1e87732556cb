// An equation: a kind's name, and then its fields.
ghost use Rattle.std.specs.Prelude.{◌≡◌};
ghost use Rattle.phrases.specs.Equations.{fields_at, equation_at};
ghost use Rattle.phrases.specs.Fields.{with_place};

use crate::fields::{axis, contact, line, point, rad, side, value};
use crate::names::kind;
use sketch::{Equation, Kind};

#[tactic(auto, unfolding(crate::specs::Equations::fields_at))]
fn fields(kind: Kind, s: &[u8], at: &mut usize) -> Result<Equation, usize>
    ensures { with_place result at.new ≡ fields_at kind s.now at.old }
{
    match kind {
        Kind::Coincident => Ok(Equation::Coincident(point(s, at)?, point(s, at)?)),
        Kind::Level => Ok(Equation::Level(point(s, at)?, point(s, at)?, axis(s, at)?)),
        Kind::Parallel => Ok(Equation::Parallel(line(s, at)?, line(s, at)?)),
        Kind::Perpendicular => Ok(Equation::Perpendicular(line(s, at)?, line(s, at)?)),
        Kind::Collinear => Ok(Equation::Collinear(line(s, at)?, line(s, at)?)),
        Kind::Equal => Ok(Equation::Equal(line(s, at)?, line(s, at)?)),
        Kind::Held => Ok(Equation::Held),
        Kind::Distance => Ok(Equation::Distance(point(s, at)?, point(s, at)?, value(s, at)?)),
        Kind::AxisDistance => Ok(Equation::AxisDistance(
            point(s, at)?,
            point(s, at)?,
            axis(s, at)?,
            value(s, at)?,
            side(s, at)?,
        )),
        Kind::Length => Ok(Equation::Length(line(s, at)?, value(s, at)?)),
        Kind::PointLine => {
            let (p, l) = (point(s, at)?, line(s, at)?);
            let (value, side) = (value(s, at)?, side(s, at)?);
            Ok(Equation::PointLine(p, l, value, side))
        }
        Kind::ArcEnds => Ok(Equation::ArcEnds(point(s, at)?, point(s, at)?, point(s, at)?)),
        Kind::Radius => Ok(Equation::Radius(point(s, at)?, point(s, at)?, value(s, at)?)),
        Kind::LineCircle => Ok(Equation::LineCircle(
            line(s, at)?,
            point(s, at)?,
            rad(s, at)?,
            side(s, at)?,
        )),
        Kind::CircleCircle => Ok(Equation::CircleCircle(
            point(s, at)?,
            rad(s, at)?,
            point(s, at)?,
            rad(s, at)?,
            contact(s, at)?,
        )),
        Kind::LineArcAt => Ok(Equation::LineArcAt(line(s, at)?, point(s, at)?, point(s, at)?)),
        Kind::ArcArcAt => Ok(Equation::ArcArcAt(point(s, at)?, point(s, at)?, point(s, at)?)),
        Kind::Midpoint => Ok(Equation::Midpoint(point(s, at)?, line(s, at)?)),
        Kind::ArcMidpoint => Ok(Equation::ArcMidpoint(
            point(s, at)?,
            point(s, at)?,
            point(s, at)?,
            point(s, at)?,
        )),
        Kind::Symmetric => Ok(Equation::Symmetric(point(s, at)?, point(s, at)?, line(s, at)?)),
        Kind::EqualRadius => Ok(Equation::EqualRadius(
            point(s, at)?,
            point(s, at)?,
            point(s, at)?,
            point(s, at)?,
        )),
    }
}

#[tactic(auto, unfolding(crate::specs::Equations::equation_at))]
pub fn equation(s: &[u8], at: usize) -> Result<(Equation, usize), usize>
    ensures { result ≡ equation_at s.now at }
{
    let (kind, mut at) = kind(s, at)?;
    let equation = fields(kind, s, &mut at)?;
    Ok((equation, at))
}
