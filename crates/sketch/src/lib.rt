// The build: its numbers, points, lines, equations and measures, and the check before a fit (equations.rs, `Eq`, `Rad`,
// `Contact`, `Equations`, `involved`). What stands past a count is no part of the build and may be anything.

#![tactic(auto)]

ghost use Rattle.std.specs.Prelude.{◌≡◌};

mod checks;
mod counts;
mod endings;
mod indices;
mod numbers;
mod touches;

pub use checks::{check, counts_over};
pub use counts::rows;
use plane::Vec2;
pub use touches::involved;

// A point number.
#[derive(Clone, Copy)]
pub struct PointNo(pub usize);

// A line number.
#[derive(Clone, Copy)]
pub struct LineNo(pub usize);

// A position among the free coordinates.
#[derive(Clone, Copy)]
pub struct FreeNo(pub usize);

// A point moves, stays where it was drawn, or stands at a place given for it.
#[derive(Clone, Copy)]
pub enum State {
    Free,
    Kept,
    Placed(Vec2),
}

impl State {
    ghost use Rattle.sketch.specs.Fixed.{is_fixed};

    // Kept where it was drawn, or placed.
    pub fn is_fixed(self) -> bool
        ensures { result ≡ is_fixed self }
    {
        match self {
            State::Free => false,
            State::Kept => true,
            State::Placed(_) => true,
        }
    }
}

#[derive(Clone, Copy)]
pub struct Point {
    pub start: Vec2,
    pub state: State,
}

#[derive(Clone, Copy)]
pub struct Line {
    pub from: PointNo,
    pub to: PointNo,
}

// The radius of an arc, by a point on it, or of a circle, as a value.
#[derive(Clone, Copy)]
pub enum Rad {
    Point(PointNo),
    Value(f64),
}

// Two circles touch outside, or inside with the sign of the difference of their radii.
#[derive(Clone, Copy)]
pub enum Contact {
    Outside,
    Inside(f64),
}

// The equations, with the Rust's names and fields in the Rust's order. Lengths are in units of the build's size, an axis
// is 0 for X and 1 for Y, a side is 1.0 or -1.0.
#[derive(Clone, Copy)]
pub enum Equation {
    Coincident(PointNo, PointNo),
    Level(PointNo, PointNo, usize),
    Parallel(LineNo, LineNo),
    Perpendicular(LineNo, LineNo),
    Collinear(LineNo, LineNo),
    Equal(LineNo, LineNo),
    Held,
    Distance(PointNo, PointNo, f64),
    AxisDistance(PointNo, PointNo, usize, f64, f64),
    Length(LineNo, f64),
    PointLine(PointNo, LineNo, f64, f64),
    ArcEnds(PointNo, PointNo, PointNo),
    Radius(PointNo, PointNo, f64),
    LineCircle(LineNo, PointNo, Rad, f64),
    CircleCircle(PointNo, Rad, PointNo, Rad, Contact),
    LineArcAt(LineNo, PointNo, PointNo),
    ArcArcAt(PointNo, PointNo, PointNo),
    Midpoint(PointNo, LineNo),
    ArcMidpoint(PointNo, PointNo, PointNo, PointNo),
    Symmetric(PointNo, PointNo, LineNo),
    EqualRadius(PointNo, PointNo, PointNo, PointNo),
}

// What is measured: the equation of the same name with the value 0.
#[derive(Clone, Copy)]
pub enum Measure {
    Distance(PointNo, PointNo),
    AxisDistance(PointNo, PointNo, usize, f64),
    Length(LineNo),
    PointLine(PointNo, LineNo, f64),
    Radius(PointNo, PointNo),
}

// The kinds of equations, by name.
#[derive(Clone, Copy)]
pub enum Kind {
    Coincident,
    Level,
    Parallel,
    Perpendicular,
    Collinear,
    Equal,
    Held,
    Distance,
    AxisDistance,
    Length,
    PointLine,
    ArcEnds,
    Radius,
    LineCircle,
    CircleCircle,
    LineArcAt,
    ArcArcAt,
    Midpoint,
    ArcMidpoint,
    Symmetric,
    EqualRadius,
}

// The kinds that are measured: a measure has the fields of its kind, but for the value.
#[derive(Clone, Copy)]
pub enum Gauge {
    Distance,
    AxisDistance,
    Length,
    PointLine,
    Radius,
}

// An array in a build holds structs, so an equation and a measure each stand in one of their own.
#[derive(Clone, Copy)]
pub struct Active {
    pub equation: Equation,
}

#[derive(Clone, Copy)]
pub struct Measured {
    pub measure: Measure,
}

#[derive(Clone, Copy)]
pub struct Build {
    pub centre: Vec2,
    pub size: f64,
    pub points: [Point; 40],
    pub point_count: usize,
    pub lines: [Line; 40],
    pub line_count: usize,
    pub equations: [Active; 40],
    pub equation_count: usize,
    pub measures: [Measured; 20],
    pub measure_count: usize,
}

// Of each sort as many items as its count says, and no more than there are places.
impl Build {
    ghost use Rattle.sketch.specs.Blank.{empty_build};
    ghost use Rattle.sketch.specs.Parts.{points_of, lines_of, equations_of, measures_of};

    // A build with nothing in it.
    pub fn empty() -> Build
        ensures { result ≡ empty_build }
    {
        let point = Point {
            start: Vec2 { x: 0.0, y: 0.0 },
            state: State::Free,
        };
        let line = Line {
            from: PointNo(0),
            to: PointNo(0),
        };
        let active = Active {
            equation: Equation::Held,
        };
        let measured = Measured {
            measure: Measure::Length(LineNo(0)),
        };
        Build {
            centre: Vec2 { x: 0.0, y: 0.0 },
            size: 0.0,
            points: [point; 40],
            point_count: 0,
            lines: [line; 40],
            line_count: 0,
            equations: [active; 40],
            equation_count: 0,
            measures: [measured; 20],
            measure_count: 0,
        }
    }

    pub fn points(&self) -> &[Point]
        ensures { result.now ≡ points_of self.now }
    {
        &self.points[..self.point_count.min(40)]
    }

    pub fn lines(&self) -> &[Line]
        ensures { result.now ≡ lines_of self.now }
    {
        &self.lines[..self.line_count.min(40)]
    }

    pub fn equations(&self) -> &[Active]
        ensures { result.now ≡ equations_of self.now }
    {
        &self.equations[..self.equation_count.min(40)]
    }

    pub fn measures(&self) -> &[Measured]
        ensures { result.now ≡ measures_of self.now }
    {
        &self.measures[..self.measure_count.min(20)]
    }
}

// The points that an equation touches: at most four; the places past the count hold point 0.
#[derive(Clone, Copy)]
pub struct Touched {
    pub points: [PointNo; 4],
    pub count: usize,
}

impl Touched {
    ghost use Rattle.sketch.specs.Involved.{named_by};

    pub fn points(&self) -> &[PointNo]
        ensures { result.now ≡ named_by self.now }
    {
        &self.points[..self.count.min(4)]
    }
}

// The endings of a job, by name; document 01's number of each is `usize::from` of it.
#[derive(Clone, Copy, Debug, PartialEq, Eq)]
pub enum Ending {
    Fitted,
    TooLong,
    BadForm,
    TooMany,
    OutOfBounds,
    NoSuchItem,
    TooManyRows,
    NotConverged,
    TooShort,
}
