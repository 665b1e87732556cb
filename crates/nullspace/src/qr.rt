// The loop over k: the longest column, its reflector, and the columns after it reflected.
ghost use Rattle.std.specs.Prelude.{◌≡◌, ◌+◌, ◌*◌, ◌≤◌, ◌<◌, length};
ghost use Rattle.loops.specs.Turns.{up_to};
ghost use Rattle.nullspace.specs.Steps.{away, ended};
ghost use Rattle.nullspace.specs.Layout.{Decomposes, Measured, Turned, longer_row, longest_of, norm_at, reflector_at, swap_head};

use crate::reflect;

// A column and its remaining norm.
#[derive(Clone, Copy)]
struct Column {
    row: usize,
    norm: f64,
}

// What is left of column `j` from `k` on.
fn norm_from(t: &[f64], n: usize, k: usize, j: usize) -> f64
    requires { (k < n) × (j * n + n ≤ length t.now) }
    ensures { result ≡ norm_at n k t.now j }
{
    let start = j * n + k;
    let end = j * n + n;
    root::sqrt(solver::norm2(&t[start..end]))
}

fn longer(t: &[f64], n: usize, m: usize, k: usize, q: usize, p: Column) -> Column
    requires { ((k < n) × ((q < m) × (m * n ≤ length t.now))) × Measured n m k t.now p }
    ensures { (result.row ≡ longer_row n k t.now q p.row) × Measured n m k t.now result }
{
    let norm = norm_from(t, n, k, q);
    if floats::magnitude(p.norm) < floats::magnitude(norm) {
        Column { row: q, norm }
    } else {
        p
    }
}

// The column with the largest remaining norm, the lowest one on ties.
fn longest(t: &[f64], n: usize, m: usize, k: usize) -> Column
    requires { ((k < n) × (0 < m)) × (m * n ≤ length t.now) }
    ensures { (result.row ≡ longest_of n m k t.now) × Measured n m k t.now result }
{
    let mut best = Column {
        row: 0,
        norm: norm_from(t, n, k, 0),
    };
    for j in 1..m {
        best = longer(t, n, m, k, j, best);
    }
    best
}

#[tactic(auto, unfolding(crate::specs::Steps::ended))]
fn is_ended(first: f64, norm: f64) -> bool
    ensures { result ≡ ended first norm }
{
    norm <= first * 1e-10 || norm == 0.0
}

fn swap_head(t: &mut [f64], n: usize, p: usize)
    requires { p * n + n ≤ length t.old }
    ensures { t.new ≡ up_to n 0 (swap_head n p) t.old }
{
    for c in 0..n {
        floats::swap(t, p * n + c, c);
    }
}

#[tactic(auto, unfolding(crate::specs::Steps::away))]
fn push_away(t: &mut [f64], k: usize, norm: f64)
    requires { k < length t.old }
    ensures { t.new ≡ away k norm t.old }
{
    t[k] -= if t[k] >= 0.0 { -norm } else { norm };
}

// Makes a reflector of the column `row`, and puts it first.
#[tactic(auto, using(loops::proofs::Cells::cells))]
fn make_reflector(t: &mut [f64], n: usize, k: usize, row: usize, norm: f64)
    requires { (k < n) × (row * n + n ≤ length t.old) }
    ensures { t.new ≡ reflector_at n k row norm t.old }
{
    swap_head(t, n, row);
    t[..k].fill(0.0);
    push_away(t, k, norm);
}

// The turn of k, on the `m` columns from k on: the first norm of all, where it goes on. Where it does not, nothing is said of what it
// leaves.
#[tactic(auto, using(loops::proofs::Cells::cells))]
fn turn(t: &mut [f64], n: usize, m: usize, k: usize, first: f64) -> Option<f64>
    requires { ((k < n) × (0 < m)) × (m * n ≤ length t.old) }
    ensures { Turned n m k first t.old t.new result }
{
    let best = longest(t, n, m, k);
    if is_ended(first, best.norm) {
        return None;
    }
    make_reflector(t, n, k, best.row, best.norm);
    let vv = solver::norm2(&t[..n]);
    if vv == 0.0 {
        return None;
    }
    reflect::reflect_rows(t, n, m, vv);
    Some(if k == 0 { best.norm } else { first })
}

// Makes reflectors of the columns, as many as the rank, and answers the rank.
#[tactic(auto, using(loops::proofs::Cells::cells))]
pub(crate) fn decompose(w: &mut [f64], rows: usize, n: usize) -> usize
    requires { rows * n ≤ length w.old }
    ensures { Decomposes rows n w.old w.new result }
{
    let last = n.min(rows);
    let mut first = 0.0;
    for k in 0..last {
        let start = k * n;
        match turn(&mut w[start..], n, rows - k, k, first) {
            Some(norm) => first = norm,
            None => return k,
        }
    }
    last
}
