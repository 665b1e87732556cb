// The fit of a group (equations.rs, `fit`, `freedom`, `conflicts`): its points and equations set out once, fitted, its freedom
// at the fit, and the suspects where it fails. A work area that is lent has room for 6,400 numbers.

#![tactic(auto)]

mod fits;
mod frames;
mod marks;
mod ranks;

pub use fits::fit;
pub use frames::set_out;
pub use marks::suspects;
use members::{Coordinates, Equations, Points};
pub use ranks::freedom;
use rounds::Unfitted;

// A group set out for its fit: its points and equations, its free coordinates, and the tables of places and columns.
#[derive(Clone, Copy)]
pub struct Frame {
    pub points: Points,
    pub equations: Equations,
    pub free: Coordinates,
    pub places: [u8; 40],
    pub columns: [u8; 80],
}

// A fit that converged: its coordinates at the head of x, and zeros past them.
#[derive(Clone, Copy)]
pub struct Fitted {
    pub x: [f64; 80],
    pub iterations: usize,
    pub tries: usize,
}

// A fit that did not: it has no coordinates to show.
#[derive(Clone, Copy, Debug, PartialEq, Eq)]
pub struct NotFitted {
    pub why: Unfitted,
    pub iterations: usize,
    pub tries: usize,
}

// Why no freedom is counted. It changes nothing that is lent.
#[derive(Clone, Copy, Debug, PartialEq, Eq)]
pub enum Uncounted {
    // 9: a work area shorter than 6,400.
    TooShort,
    // 6: more than 64 rows.
    TooManyRows,
}
