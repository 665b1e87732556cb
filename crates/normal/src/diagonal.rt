// The diagonal of the product, and its damping.
ghost use Rattle.std.specs.Prelude.{◌≡◌, ◌*◌, ◌≤◌, length};
ghost use Rattle.normal.specs.Half.{spread_of};
ghost use Rattle.normal.specs.Normal.{damped_of};
ghost use Rattle.normal.specs.Promise.{Damps, Tops};

use crate::half::triangle;
use crate::spread::Half;
use slices::Refusal;

// The largest number on the diagonal of the matrix whose half h is, at least 1e-300.
#[tactic(auto, unfolding(crate::specs::Half::half_max_of))]
pub fn diag_max(h: &[f64], rows: usize) -> Result<f64, Refusal>
    ensures { Tops rows h.now result }
{
    if 80 < rows {
        return Err(Refusal::TooMany);
    }
    if h.len() < triangle(rows) {
        return Err(Refusal::TooShort);
    }
    let h = Half { numbers: h, rows };
    Ok(floats::max(h.largest(), 1e-300))
}

#[tactic(auto, using(loops::proofs::Cells::cells))]
fn add_on_diagonal(w: &mut [f64], rows: usize, mu: f64, m: f64)
    requires { rows * rows ≤ length w.old }
    ensures { w.new ≡ damped_of rows mu m w.old }
{
    for i in 0..rows {
        w[i * rows + i] += mu * m;
    }
}

// The matrix whose half h is with mu * m added on its diagonal, over the whole of w. The half itself is never damped.
fn whole_damped(h: &Half, w: &mut [f64], mu: f64, m: f64)
    requires { length w.old ≡ h.now.rows * h.now.rows }
    ensures { w.new ≡ damped_of h.now.rows mu m (spread_of h.now.rows h.now.numbers.now) }
{
    h.spread(w);
    add_on_diagonal(w, h.rows, mu, m);
}

// The matrix whose half h is with mu * m added on its diagonal, at the head of w.
pub fn damped(h: &[f64], w: &mut [f64], rows: usize, mu: f64, m: f64) -> Result<(), Refusal>
    ensures { Damps rows mu m h.now w.old w.new result }
{
    if 80 < rows {
        return Err(Refusal::TooMany);
    }
    let nn = rows * rows;
    if h.len() < triangle(rows) || w.len() < nn {
        return Err(Refusal::TooShort);
    }
    let h = Half { numbers: h, rows };
    whole_damped(&h, &mut w[..nn], mu, m);
    Ok(())
}
