// The phrases of a job's text: its numbers, floats and other fields, and the equations and measures that are made of them
// (document 01, "The text"). Each reading takes a place and gives what stands there and the place after it, or the place at which
// the text is not as it should be.

#![tactic(auto)]

mod equations;
mod fields;
mod gauges;
mod names;

pub use equations::equation;
pub use fields::{number, vec};
pub use gauges::measure;
