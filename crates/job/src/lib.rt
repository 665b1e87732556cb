// The whole job on a build (lib.rs, `solve` and `solve_group`): check it, group it, fit each group, bring the points back to size,
// put the placed ones, level and measure.

#![tactic(auto)]

mod ends;
mod fitting;
mod freedoms;
mod outputs;
mod points;
mod refusals;
mod sweeps;

use answer::GroupFit;
pub use ends::solve;

// A work area: the fits take this much of each.
pub(crate) type Area = [f64; 6400];

// The groups fitted so far: the points, x, y, x, y, .., of which those of later groups stand where they were drawn, the sum of the
// freedoms, and a line for each group.
#[derive(Clone, Copy)]
pub(crate) struct Doing {
    pub(crate) points: [f64; 80],
    pub(crate) freedom: usize,
    pub(crate) groups: [GroupFit; 40],
}

// A group that does not converge, and what is answered of it.
#[derive(Clone, Copy)]
pub(crate) struct Failing {
    pub(crate) group: usize,
    pub(crate) failure: GroupFit,
}
