// The points and the equations of a group.
ghost use Rattle.groups.specs.Chains.{places_from, points_in, equations_in};
ghost use Rattle.members.specs.Lists.{Lists, numbers_of, without_of};

use crate::{Equations, Listed, Points};
use groups::Grouping;

// The places that hold g, rising.
fn holding(of: &[usize; 40], g: usize) -> Listed<40>
    ensures { Lists result (places_from 0 of.now g) }
{
    let mut r = Listed::none();
    for (i, h) in of.iter().enumerate() {
        if *h == g {
            r.push(i);
        }
    }
    r
}

pub fn points_of(gr: &Grouping, g: usize) -> Points
    ensures { Lists result.0 (points_in gr.now g) }
{
    Points(holding(&gr.of_point, g))
}

pub fn equations_of(gr: &Grouping, g: usize) -> Equations
    ensures { Lists result.0 (equations_in gr.now g) }
{
    Equations(holding(&gr.of_equation, g))
}

// The rest without equation k.
pub fn without(l: &Equations, k: usize) -> Equations
    ensures { Lists result.0 (without_of k (numbers_of l.now.0)) }
{
    let mut r = Listed::none();
    for c in l.0.numbers() {
        if *c != k {
            r.push(*c);
        }
    }
    Equations(r)
}
