// Levelling (equations.rs, `level`): each run of points tied by horizontals, or by verticals, takes the coordinate of its root,
// which is its lowest fixed point, or its lowest point where none is fixed. Coordinates are only copied, so they keep their bits.

#![tactic(auto)]

mod parents;
mod sweeps;

pub use sweeps::level;
