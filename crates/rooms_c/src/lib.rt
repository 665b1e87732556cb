// The calls of single rooms for programs in C and in Rust: what tests link, to hold each room to the Rust and to time it. A build comes as
// the text of a job; where only its groups, rows, levels, measures or worst are asked, a text that is refused is a build with nothing in it.

#![tactic(auto)]

pub mod builds;
pub mod matrices;
pub mod numbers;
pub mod sweeps;
