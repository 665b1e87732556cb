// The parents of one axis: a walk up from a point ends at the root of its run.
ghost use Rattle.std.specs.Prelude.{◌≡◌};
ghost use Rattle.level.specs.Parents.{Leaves, find_of, a_wins, join_to};

// Enough turns for every walk (`walk_ends`, proofs/Roots.antt): the bound only lets a call end whatever it is lent.
const TURNS: usize = 80;

// The root of x. Each point on the way gets its parent's parent, and the walk goes on there.
pub(crate) fn find(p: &mut [usize], x: usize) -> usize
    ensures { Leaves (find_of p.old x) p.new result }
{
    let mut x = x;
    for _ in 0..TURNS {
        let parent = slices::get_or(p, x, x);
        if parent == x {
            return x;
        }
        let above = slices::get_or(p, parent, parent);
        slices::put(p, x, above);
        x = above;
    }
    x
}

// Whether of two roots the first stays one: the fixed one, or else the lower. Past the points none is fixed.
fn a_wins(fixed: &[bool], ra: usize, rb: usize) -> bool
    ensures { result ≡ a_wins fixed.now ra rb }
{
    let fa = slices::get_or(fixed, ra, false);
    let fb = slices::get_or(fixed, rb, false);
    (fa, rb) > (fb, ra)
}

// The runs of a and b become one.
#[tactic(auto, unfolding(crate::specs::Parents::join_to))]
pub(crate) fn join(p: &mut [usize], fixed: &[bool], a: usize, b: usize)
    ensures { p.new ≡ join_to fixed.now a b p.old }
{
    let ra = find(p, a);
    let rb = find(p, b);
    if a_wins(fixed, ra, rb) {
        slices::put(p, rb, ra);
    } else {
        slices::put(p, ra, rb);
    }
}
