// What every room needs of f64 and of slices of them. Each function is total, and its promise is an equation.

#![tactic(auto)]

ghost use Rattle.std.specs.Prelude.{◌≡◌, length, replicate};
ghost use Rattle.std.specs.Float.Ieee.Scale.{finite};
ghost use Rattle.floats.specs.Largest.{larger_abs, max_abs_of};
ghost use Rattle.floats.specs.Lists.{copied_of, swap_at};
ghost use Rattle.floats.specs.Magnitude.{abs_of, magnitude_of, max_of};
ghost use Rattle.floats.specs.Ops.{zero⁺};

// x without its sign, by its bits: a branch on the sign, as std's has, would be mispredicted every second time in a scan over a
// matrix. A NaN has no bits of its own, so it is tested for first.
pub fn abs(x: f64) -> f64
    ensures { result ≡ abs_of x }
{
    if x.is_nan() {
        x
    } else {
        f64::from_bits(x.to_bits() % 0x8000_0000_0000_0000)
    }
}

// Neither a NaN nor an infinity: only those times zero are a NaN.
pub fn is_finite(x: f64) -> bool
    ensures { result ≡ finite x }
{
    x.is_finite()
}

// The larger of a and b; where one is a NaN, the other. Of equals it is the first, zeros of both signs too, which std's leaves open.
pub fn max(a: f64, b: f64) -> f64
    ensures { result ≡ max_of a b }
{
    if a < b {
        b
    } else if a.is_nan() {
        b
    } else {
        a
    }
}

// The larger of m and the magnitude of a, and infinite where a is not finite.
pub fn larger_abs(m: f64, a: f64) -> f64
    ensures { result ≡ larger_abs m a }
{
    if is_finite(a) {
        max(m, abs(a))
    } else {
        f64::INFINITY
    }
}

// The largest magnitude, and infinite where a number is not finite.
#[tactic(auto, unfolding(crate::specs::Largest::max_abs_of))]
pub fn max_abs(v: &[f64]) -> f64
    ensures { result ≡ max_abs_of v.now }
{
    v.iter().fold(0.0, |m, a| larger_abs(m, *a))
}

// The place of x in the order of magnitudes.
pub fn magnitude(x: f64) -> u64
    ensures { result ≡ magnitude_of x }
{
    if x.is_nan() {
        0x7ff8_0000_0000_0000
    } else {
        x.to_bits() % 0x8000_0000_0000_0000
    }
}

// x as it is handed out: a NaN with the one pattern 7ff8000000000000, which the constant has once compiled.
pub fn handed_out(x: f64) -> f64
    ensures { result ≡ x }
{
    if x.is_nan() { f64::NAN } else { x }
}

// Every place +0.0.
pub fn clear(s: &mut [f64])
    ensures { s.new ≡ replicate (length s.old) zero⁺ }
{
    s.fill(0.0);
}

// As much of `from` as there is room for goes to the head of `to`.
pub fn copy(from: &[f64], to: &mut [f64])
    ensures { to.new ≡ copied_of from.now to.old }
{
    let n = from.len().min(to.len());
    to[..n].copy_from_slice(&from[..n]);
}

// Every place as it is handed out.
pub fn hand_out(s: &mut [f64])
    ensures { s.new ≡ s.old }
{
    for x in s.iter_mut() {
        *x = handed_out(*x);
    }
}

// What stands at i and at j change places.
pub fn swap(s: &mut [f64], i: usize, j: usize)
    ensures { s.new ≡ swap_at i j s.old }
{
    let x = slices::get_or(s, i, f64::NAN);
    let y = slices::get_or(s, j, f64::NAN);
    slices::put(s, i, y);
    slices::put(s, j, x);
}
