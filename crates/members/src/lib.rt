// What the fit of a group is about (equations.rs, `Group`, `fit`, `scaled`, `unscale`; solver.rs, `columns`): its points and
// equations by their numbers, which of its coordinates may move, where they start, and how they come back to their size.

#![tactic(auto)]

mod lists;
mod movable;
mod scale;
mod tables;

pub use lists::{equations_of, points_of, without};
pub use movable::{fixed, free};
pub use scale::{scaled, start, unscale};
pub use tables::{columns, places};

// Numbers that rise, and 0 past the count.
#[derive(Clone, Copy)]
pub struct Listed<const N: usize> {
    pub items: [usize; N],
    pub count: usize,
}

impl<const N: usize> Listed<N> {
    ghost use Rattle.std.specs.Prelude.{◌≡◌, ◌≤◌, ◌<◌, length};
    ghost use Rattle.members.specs.Lists.{none_in, numbers_of, pushed_of};

    // As many as the count says, and no more than there are places.
    pub fn numbers(&self) -> &[usize]
        ensures numbers { result.now ≡ numbers_of self.now }
        ensures few { length result.now ≤ N }
    {
        &self.items[..self.count.min(N)]
    }

    pub(crate) fn none() -> Self
        ensures { result ≡ none_in N }
    {
        Listed {
            items: [0; N],
            count: 0,
        }
    }

    pub(crate) fn push(&mut self, v: usize)
        requires { self.old.count < N }
        ensures { self.new ≡ pushed_of v self.old }
    {
        self.items[self.count] = v;
        self.count += 1;
    }
}

// The numbers of a group's points, those of its equations, and its free coordinates, of which the k-th point's are 2 k and
// 2 k + 1: one cannot be taken for the other.
#[derive(Clone, Copy)]
pub struct Points(pub Listed<40>);

#[derive(Clone, Copy)]
pub struct Equations(pub Listed<40>);

#[derive(Clone, Copy)]
pub struct Coordinates(pub Listed<80>);
