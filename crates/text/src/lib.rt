// The text of a job: from its bytes to a build (document 01, "The text"). Each reading takes a place and gives what stands there
// and the place after it, or the place at which the text is not as it should be.

#![tactic(auto)]

mod items;
mod reader;
mod rows;

pub use reader::read;

// The four counts of a job's text.
#[derive(Clone, Copy)]
pub struct Counts {
    pub points: usize,
    pub lines: usize,
    pub equations: usize,
    pub measures: usize,
}
