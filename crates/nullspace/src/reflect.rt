// `reflect`: on a row of the list whose first row is the reflector, and on a vector of its own.
ghost use Rattle.std.specs.Prelude.{◌≡◌, ◌+◌, ◌*◌, ◌≤◌, ◌<◌, length};
ghost use Rattle.solver.specs.Sums.{norm2_of};
ghost use Rattle.nullspace.specs.Steps.{dot_of, reflect_of};
ghost use Rattle.nullspace.specs.Layout.{dot_at, reflect_at, reflected_by};

fn dot_row(t: &[f64], n: usize, j: usize) -> f64
    requires { j * n + n ≤ length t.now }
    ensures { result ≡ dot_at n j t.now }
{
    let mut s = -0.0;
    for i in 0..n {
        s += t[i] * t[j * n + i];
    }
    s
}

fn reflect_row(t: &mut [f64], n: usize, vv: f64, j: usize)
    requires { (0 < j) × (j * n + n ≤ length t.old) }
    ensures { t.new ≡ reflect_at n vv j t.old }
{
    let f = 2.0 * dot_row(t, n, j) / vv;
    if f != 0.0 {
        let (above, row) = t.split_at_mut(j * n);
        solver::row_update(&mut row[..n], f, &above[..n]);
    }
}

// Each of the `m` rows but the first, which is the reflector.
pub(crate) fn reflect_rows(t: &mut [f64], n: usize, m: usize, vv: f64)
    requires { m * n ≤ length t.old }
    ensures { t.new ≡ reflected_by n m vv t.old }
{
    for j in 1..m {
        reflect_row(t, n, vv, j);
    }
}

// The product of two vectors, and the first one's with itself: two sums that do not wait for each other.
#[derive(Clone, Copy)]
struct Sums {
    dot: f64,
    norm: f64,
}

fn products(v: &[f64], n: usize, c: &[f64]) -> Sums
    requires { (length v.now ≡ n) × (length c.now ≡ n) }
    ensures { (result.dot ≡ dot_of v.now c.now) × (result.norm ≡ norm2_of v.now) }
{
    let mut dot = -0.0;
    let mut norm = -0.0;
    for i in 0..n {
        dot += v[i] * c[i];
        norm += v[i] * v[i];
    }
    Sums { dot, norm }
}

pub(crate) fn reflect(v: &[f64], n: usize, c: &mut [f64])
    requires { (length v.now ≡ n) × (length c.old ≡ n) }
    ensures { c.new ≡ reflect_of v.now (norm2_of v.now) c.old }
{
    let p = products(v, n, c);
    let f = 2.0 * p.dot / p.norm;
    if f != 0.0 {
        solver::row_update(c, f, v);
    }
}
