// A measure: the name of a kind that is measured, and the fields of that kind without the value.
ghost use Rattle.std.specs.Prelude.{◌≡◌};
ghost use Rattle.phrases.specs.Fields.{with_place};
ghost use Rattle.phrases.specs.Measures.{gauged_at, measure_at};

use crate::fields::{axis, line, point, side};
use crate::names::gauge;
use sketch::{Gauge, Measure};

#[tactic(auto, unfolding(crate::specs::Measures::gauged_at))]
fn gauged(gauge: Gauge, s: &[u8], at: &mut usize) -> Result<Measure, usize>
    ensures { with_place result at.new ≡ gauged_at gauge s.now at.old }
{
    match gauge {
        Gauge::Distance => Ok(Measure::Distance(point(s, at)?, point(s, at)?)),
        Gauge::AxisDistance => Ok(Measure::AxisDistance(
            point(s, at)?,
            point(s, at)?,
            axis(s, at)?,
            side(s, at)?,
        )),
        Gauge::Length => Ok(Measure::Length(line(s, at)?)),
        Gauge::PointLine => Ok(Measure::PointLine(point(s, at)?, line(s, at)?, side(s, at)?)),
        Gauge::Radius => Ok(Measure::Radius(point(s, at)?, point(s, at)?)),
    }
}

#[tactic(auto, unfolding(crate::specs::Measures::measure_at))]
pub fn measure(s: &[u8], at: usize) -> Result<(Measure, usize), usize>
    ensures { result ≡ measure_at s.now at }
{
    let (gauge, mut at) = gauge(s, at)?;
    let measure = gauged(gauge, s, &mut at)?;
    Ok((measure, at))
}
