// The damped fit of chosen equations (solver.rs, `solve`): rounds of tries, each a step that is taken where it lowers the cost.

#![tactic(auto)]

mod attempt;
mod codes;
mod opening;
mod round;
mod state;
mod task;
mod tries;

pub use codes::{code, named_column};
use members::{Coordinates, Equations};
pub use opening::solve;
use sketch::{Active, Line};
use slices::Refusal;

// What a fit is of: the chosen equations of a build, its lines, the tables of a point's place in the group and of a coordinate's
// among the free ones, and which coordinates these are.
#[derive(Clone, Copy)]
pub struct Posed<'a> {
    pub equations: &'a [Active; 40],
    pub lines: &'a [Line; 40],
    pub chosen: &'a Equations,
    pub places: &'a [u8; 40],
    pub columns: &'a [u8; 80],
    pub free: &'a Coordinates,
}

// Why a fit failed, in document 02's order.
#[derive(Clone, Copy, Debug, PartialEq, Eq)]
pub enum Reason {
    // No coordinate is free.
    NothingFree,
    // Twelve tries are spent, and the last of them came to nothing since elimination found no pivot in this column, counted from 1, ..
    NoPivot(usize),
    // .. or a result of elimination was not finite, ..
    NotFinite,
    // .. or the cost was not finite or not less.
    NotLess,
    // The iterations are spent, and the last of them still took a try.
    Spent,
}

// Where the fit stands beside its coordinates and residuals: `cost`, `mu`, `polish`, the rounds and tries begun, and what is said where it
// fails here.
#[derive(Clone, Copy)]
pub struct Fit {
    pub cost: f64,
    pub mu: f64,
    pub polish: usize,
    pub iterations: usize,
    pub tries: usize,
    pub why: Reason,
}

// Why there is no fit.
#[derive(Clone, Copy, Debug, PartialEq, Eq)]
pub enum Unfitted {
    // No coordinates are handed out.
    Failed(Reason),
    // More than 80 coordinates, or a work area shorter than 6,400, the most that 80 rows and 80 free coordinates take. Nothing that is
    // lent is changed.
    Refused(Refusal),
}

// What a call came to.
#[derive(Clone, Copy)]
pub struct Solved {
    pub ending: Result<(), Unfitted>,
    pub iterations: usize,
    pub tries: usize,
}
