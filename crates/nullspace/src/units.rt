// The rows of the matrix, each scaled to unit length.
ghost use Rattle.std.specs.Prelude.{map, ◌≡◌, ◌*◌, ◌≤◌, length};
ghost use Rattle.floats.specs.Ops.{◌⊘◌};
ghost use Rattle.nullspace.specs.Steps.{unit_of};
ghost use Rattle.nullspace.specs.Layout.{unit_rows};

fn divide(row: &mut [f64], len: f64)
    ensures { row.new ≡ map (λ v. v ⊘ len) row.old }
{
    for x in row.iter_mut() {
        *x /= len;
    }
}

// By index: `copy_from_slice` becomes a call of `memmove` here, and the libraries for C ask of the C library for `memcpy` and `memset` alone
// (bindings/c/sakiromuk.h).
fn copy(row: &[f64], to: &mut [f64])
    requires { length to.old ≡ length row.now }
    ensures { to.new ≡ row.now }
{
    for i in 0..row.len() {
        to[i] = row[i];
    }
}

// Only a length above zero divides.
#[tactic(auto, unfolding(crate::specs::Steps::unit_of, crate::specs::Steps::scaled_by))]
fn unit_row(row: &[f64], to: &mut [f64])
    requires { length to.old ≡ length row.now }
    ensures { to.new ≡ unit_of row.now }
{
    let len = root::sqrt(solver::norm2(row));
    copy(row, to);
    if len > 0.0 {
        divide(to, len);
    }
}

#[tactic(auto, using(loops::proofs::Cells::cells))]
pub(crate) fn unit_rows(m: &[f64], rows: usize, n: usize, w: &mut [f64])
    requires { (rows * n ≤ length m.now) × (length w.old ≡ rows * n) }
    ensures { w.new ≡ unit_rows rows n m.now }
{
    for i in 0..rows {
        let start = i * n;
        let end = start + n;
        unit_row(&m[start..end], &mut w[start..end]);
    }
}
