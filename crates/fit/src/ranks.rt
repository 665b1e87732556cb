// The freedom of a group at given coordinates.
ghost use Rattle.std.specs.Prelude.{◌≡◌, ◌≤◌, IfOk, length};
ghost use Rattle.members.specs.Lists.{numbers_of};
ghost use Rattle.members.specs.Movable.{indices_of};
ghost use Rattle.rounds.specs.Problem.{row_count};
ghost use Rattle.fit.specs.Inside.{Lays, Ranks};
ghost use Rattle.fit.specs.Promise.{Frees};

use crate::{Frame, Uncounted};
use rows::Located;
use sketch::{Active, Build, Equation};

// How many rows the frame's own equations have.
fn row_count(b: &Build, f: &Frame) -> usize
    ensures { result ≡ row_count b.now.equations (numbers_of f.now.equations.0) }
{
    let mut rows = 0;
    for &k in f.equations.0.numbers() {
        // Past the end there is `Held`, which has no row.
        let held = Active {
            equation: Equation::Held,
        };
        rows += sketch::rows(slices::get_or(&b.equations, k, held).equation);
    }
    rows
}

// The gradients of the frame's own equations at x, at the head of p, and how many rows they are.
fn lay(b: &Build, f: &Frame, nf: usize, x: &[f64], p: &mut [f64]) -> usize
    requires { (nf ≡ length (indices_of f.now.free)) × (nf ≤ 80) × (6400 ≤ length p.old) }
    ensures { Lays b.now f.now nf x.now p.old p.new result }
{
    let points = Located {
        places: &f.places,
        x,
    };
    slopes::jacobian(
        &b.equations,
        &b.lines,
        f.equations.0.numbers(),
        points,
        &f.columns,
        nf,
        p,
    )
}

// The rank of the matrix at the head of p. What the three areas held of it is +0.0 afterwards.
fn rank(rows: usize, nf: usize, p: &mut [f64], q: &mut [f64], r: &mut [f64]) -> usize
    requires { (rows ≤ 64) × (nf ≤ 80) × (6400 ≤ length p.old) × (6400 ≤ length q.old) × (6400 ≤ length r.old) }
    ensures { Ranks rows nf p.old q.old r.old p.new q.new r.new result }
{
    let size = rows * nf;
    let square = nf * nf;
    // With so few rows and so much room nothing is refused.
    let rank = nullspace::null_space(&p[..size], rows, nf, q, r).unwrap_or(0);
    floats::clear(&mut p[..size]);
    floats::clear(&mut r[..square]);
    rank
}

// Free coordinates minus rank at x, of the frame's own equations. The Jacobian lies in p; q and r are null space's working room and
// output.
pub fn freedom(
    b: &Build,
    f: &Frame,
    x: &[f64],
    p: &mut [f64],
    q: &mut [f64],
    r: &mut [f64],
) -> Result<usize, Uncounted>
    ensures frees { Frees b.now f.now x.now p.old q.old r.old p.new q.new r.new result }
    ensures few { IfOk result (λ n. n ≤ 80) }
{
    if (p.len() < 6400) | (q.len() < 6400) | (r.len() < 6400) {
        return Err(Uncounted::TooShort);
    }
    if 64 < row_count(b, f) {
        return Err(Uncounted::TooManyRows);
    }
    let nf = f.free.0.numbers().len();
    let rows = lay(b, f, nf, x, p);
    Ok(nf.saturating_sub(rank(rows, nf, p, q, r)))
}
