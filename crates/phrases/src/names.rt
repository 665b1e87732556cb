// The kinds of equations and of measures by their names: the Rust's, in small letters.
ghost use Rattle.std.specs.Prelude.{◌≡◌, ℕ, List};
ghost use Rattle.sketch.specs.Kinds.{kind_of};
ghost use Rattle.phrases.specs.Kinds.{name_of, kind_at, gauge_name, gauge_at};
ghost use Rattle.spelling.specs.Places.{named};

use sketch::{Gauge, Kind};
use spelling::word;

// What has a name in a text.
trait Named: Copy {
    ghost spelled: { Self → List ℕ };

    fn name(self) -> &'static [u8]
        ensures { result.now ≡ spelled self };
}

impl Named for Kind {
    ghost spelled = { name_of };

    fn name(self) -> &'static [u8] {
        match self {
            Kind::Coincident => b"coincident",
            Kind::Level => b"level",
            Kind::Parallel => b"parallel",
            Kind::Perpendicular => b"perpendicular",
            Kind::Collinear => b"collinear",
            Kind::EqualRadius => b"equalradius",
            Kind::Equal => b"equal",
            Kind::Held => b"held",
            Kind::Distance => b"distance",
            Kind::AxisDistance => b"axisdistance",
            Kind::Length => b"length",
            Kind::PointLine => b"pointline",
            Kind::ArcEnds => b"arcends",
            Kind::Radius => b"radius",
            Kind::LineCircle => b"linecircle",
            Kind::CircleCircle => b"circlecircle",
            Kind::LineArcAt => b"linearcat",
            Kind::ArcArcAt => b"arcarcat",
            Kind::Midpoint => b"midpoint",
            Kind::ArcMidpoint => b"arcmidpoint",
            Kind::Symmetric => b"symmetric",
        }
    }
}

// A measure has the name of its kind.
impl Named for Gauge {
    ghost spelled = { gauge_name };

    fn name(self) -> &'static [u8] {
        match self {
            Gauge::Distance => Kind::Distance.name(),
            Gauge::AxisDistance => Kind::AxisDistance.name(),
            Gauge::Length => Kind::Length.name(),
            Gauge::PointLine => Kind::PointLine.name(),
            Gauge::Radius => Kind::Radius.name(),
        }
    }
}

// The first of all whose name stands there; where none does, the place at which the last one's name fails.
#[tactic(auto, unfolding(spelling::specs::Places::named_or))]
fn by_name<K: Named>(s: &[u8], at: usize, all: &[K]) -> Result<(K, usize), usize>
    ensures { result ≡ named K.spelled s.now at all.now }
{
    let mut failed = at;
    for k in all {
        match word(s, at, k.name()) {
            Ok(next) => return Ok((*k, next)),
            Err(place) => failed = place,
        }
    }
    Err(failed)
}

// The longer of two names with one beginning is tried first.
pub(crate) fn kind(s: &[u8], at: usize) -> Result<(Kind, usize), usize>
    ensures { result ≡ kind_at s.now at }
{
    let kinds = [
        Kind::Coincident,
        Kind::Level,
        Kind::Parallel,
        Kind::Perpendicular,
        Kind::Collinear,
        Kind::EqualRadius,
        Kind::Equal,
        Kind::Held,
        Kind::Distance,
        Kind::AxisDistance,
        Kind::Length,
        Kind::PointLine,
        Kind::ArcEnds,
        Kind::Radius,
        Kind::LineCircle,
        Kind::CircleCircle,
        Kind::LineArcAt,
        Kind::ArcArcAt,
        Kind::Midpoint,
        Kind::ArcMidpoint,
        Kind::Symmetric,
    ];
    by_name(s, at, &kinds)
}

pub(crate) fn gauge(s: &[u8], at: usize) -> Result<(Gauge, usize), usize>
    ensures { result ≡ gauge_at s.now at }
{
    let gauges = [
        Gauge::Distance,
        Gauge::AxisDistance,
        Gauge::Length,
        Gauge::PointLine,
        Gauge::Radius,
    ];
    by_name(s, at, &gauges)
}
