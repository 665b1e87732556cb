// The gradients of a list of equations, added straight into dense rows of a lent slice (equations.rs, `residuals`; solver.rs,
// `dense`). A coordinate's position among the free ones comes from a table.

#![tactic(auto)]

mod arms;
mod dense;
mod sweep;
mod through;

pub use sweep::jacobian;
