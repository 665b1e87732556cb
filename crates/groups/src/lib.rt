// The groups of a build (equations.rs, `tied_points`, `groups`): points that equations tie together, and those equations.

#![tactic(auto)]

mod listing;
mod parents;
mod sweeps;
mod tied;

pub use sweeps::groups;
pub use tied::tied_points;

// What stands for no group: there are at most 40, and the first is 0.
pub const NO_GROUP: usize = 40;

// The group of each point and of each equation, `NO_GROUP` where it is in none. Groups are numbered from 0 in the order of
// their lowest points, so group g's points and equations are the places that hold g, walked rising.
#[derive(Clone, Copy)]
pub struct Grouping {
    pub of_point: [usize; 40],
    pub of_equation: [usize; 40],
    pub count: usize,
}
