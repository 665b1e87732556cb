// What a round of the fit makes of the Jacobian (solver.rs, `solve`): the product matrix, its damped copy, and the step.
// The Jacobian is rows × nf and the damped copy rows × rows, each at the head of a lent slice, row after row; of the product itself only the
// lower half is kept, row after row, so that (i, k) with k ≤ i is at i(i + 1)/2 + k. Where a slice is shorter than its shape, or there are
// too many rows or free coordinates (80 is the most), the call says so and nothing happens.

#![tactic(auto)]

mod diagonal;
mod half;
mod jacobian;
mod spread;
mod step;

pub use diagonal::{damped, diag_max};
pub use half::product;
pub use step::moved;
