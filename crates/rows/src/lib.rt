// The residuals of the equations at given coordinates (equations.rs, `residuals`), and where points and lines are there. A
// point's place among the group's points comes from a table.

#![tactic(auto)]

pub mod answer;
mod lines;
mod located;
mod residual;
mod sweep;
pub mod vectors;

pub use lines::{ends_of, lines_of};
pub use located::Located;
use plane::Vec2;
pub use residual::values;
use sketch::{Line, LineNo, PointNo};
pub use sweep::residuals;

// A part of a row's gradient: what it is with respect to a point's two coordinates.
#[derive(Clone, Copy)]
pub struct Entry {
    pub point: PointNo,
    pub d: Vec2,
}

// The numbers of the lines that an equation names: a kind with one line has it first, and line 0 stands where no line is named.
#[derive(Clone, Copy)]
pub struct LineNos {
    pub first: LineNo,
    pub second: LineNo,
}

// The ends of these lines.
#[derive(Clone, Copy)]
pub struct Ends {
    pub first: Line,
    pub second: Line,
}
