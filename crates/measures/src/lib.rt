// The measures of a build (equations.rs, `measures`): what its reference dimensions are at given points.

#![tactic(auto)]

mod gauges;

pub use gauges::measures;
