// The rows below the pivot, each less its multiple of the pivot's row.
ghost use Rattle.std.specs.Prelude.{◌≡◌, ◌+◌, ◌*◌, ◌≤◌, ◌<◌, length};
ghost use Rattle.loops.specs.Turns.{up_to};
ghost use Rattle.solver.specs.Steps.{sys, less_by, less_at, less_row, row_of, below_of};

// Each number of the row less `f` times its fellow in the other one, as far as both go.
pub fn row_update(row: &mut [f64], f: f64, other: &[f64])
    ensures { row.new ≡ up_to (length other.now) 0 (less_by other.now f) row.old }
{
    let end = row.len().min(other.len());
    // By index: what is written through `zip` over `iter_mut` no proof knows afterwards.
    for i in 0..end {
        row[i] -= f * other[i];
    }
}

// Row `r` less `f` times row `col`, from the pivot column of row `col` on.
fn less_part(a: &mut [f64], n: usize, col: usize, r: usize, f: f64)
    requires { ((col < r) × (r < n)) × (n * n ≤ length a.old) }
    ensures { a.new ≡ up_to n col (less_at n col r f) a.old }
{
    let len = n - col;
    let start = col * n + col;
    let (above, below) = a.split_at_mut(r * n + col);
    row_update(&mut below[..len], f, &above[start..start + len]);
}

// Row `r` less `f` times row `col`, and the right side with it.
fn less_row(a: &mut [f64], b: &mut [f64], n: usize, col: usize, r: usize, f: f64)
    requires { ((col < r) × (r < n)) × ((n * n ≤ length a.old) × (n ≤ length b.old)) }
    ensures { sys a.new b.new ≡ less_row n col r f (sys a.old b.old) }
{
    if f == 0.0 {
        return;
    }
    less_part(a, n, col, r, f);
    b[r] -= f * b[col];
}

#[tactic(auto, using(loops::proofs::Cells::cells))]
fn clear_row(a: &mut [f64], b: &mut [f64], n: usize, col: usize, p: f64, r: usize)
    requires { ((col < r) × (r < n)) × ((n * n ≤ length a.old) × (n ≤ length b.old)) }
    ensures { sys a.new b.new ≡ row_of n col p r (sys a.old b.old) }
{
    let f = a[r * n + col] / p;
    less_row(a, b, n, col, r, f);
}

// Clears column `col` in every row after `col`.
#[tactic(auto, using(loops::proofs::Cells::cells))]
pub(crate) fn clear_below(a: &mut [f64], b: &mut [f64], n: usize, col: usize)
    requires { (col < n) × ((n * n ≤ length a.old) × (n ≤ length b.old)) }
    ensures { sys a.new b.new ≡ below_of n col (sys a.old b.old) }
{
    let p = a[col * n + col];
    for r in col + 1..n {
        clear_row(a, b, n, col, p, r);
    }
}
