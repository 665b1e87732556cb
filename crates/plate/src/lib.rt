// What the equations of a build come to at given points (equations.rs, `residuals`), whoever worked the points out. Nothing here fits.

#![tactic(auto)]

mod scale;
mod sweep;

pub use scale::{in_order, scaled};
pub use sweep::worst;
