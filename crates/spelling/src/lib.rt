// How the bytes of a text are read: words, whole numbers and floats. Each reading takes the text and a place in it, the index of
// the next byte, and gives what it read and the place after it, or the place at which the text is not as it should be.

#![tactic(auto)]

mod floating;
mod places;
mod wholes;

pub use floating::float;
pub use places::{eat, word};
pub use wholes::whole;
