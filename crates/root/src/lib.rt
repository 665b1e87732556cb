// The square root of an f64, correctly rounded. A positive x is a whole number times an even power of 2, so its root is
// that of a whole number n: the r for which 4 n lies between the squares of 2 r - 1 and 2 r + 1, twice the points halfway
// to r's neighbours. Floats give a guess, of whose accuracy nothing is claimed, and whole numbers settle it.

#![tactic(auto)]

ghost use Rattle.std.specs.Prelude.{◌≡◌, ◌+◌, ◌*◌, ◌/◌, ◌^◌, ◌≤◌, ◌<◌, not, T};
ghost use Rattle.std.specs.Float.{binary64};
ghost use Rattle.std.specs.Float.Ieee.{is_nan, of_bits};
ghost use Rattle.root.specs.Root.{root_bits, sqrt_of};
ghost use Rattle.root.specs.Whole.{Over, Under, Root};

// The weight of the exponent's field in a bit pattern: 2 ^ 52.
const FIELD: u64 = 0x10_0000_0000_0000;

// The pattern of +infinity.
const INFINITE: u64 = 0x7ff0_0000_0000_0000;

// The pattern of -0.0.
const MINUS_ZERO: u64 = 0x8000_0000_0000_0000;

// z * z / 2 ^ 46, the product taken by halves of 23 bits.
fn square(z: u64) -> u64
    requires { z ≤ 2 ^ 54 + 1 }
    ensures { result ≡ z * z / 2 ^ 46 }
{
    let h = z / 0x80_0000;
    let l = z % 0x80_0000;
    h * h + (2 * h * l + l * l / 0x80_0000) / 0x80_0000
}

// Down to the root of t * 2 ^ 44, from an r whose upper halfway point is above it.
fn fall(t: u64, r: u64) -> u64
    requires { (2 ^ 60 ≤ t) × (r ≤ 2 ^ 53) × Under t r }
    ensures { Root t result }
{
    let mut a = r;
    while t <= square(2 * a - 1) {
        a -= 1;
    }
    a
}

// Up to the root of t * 2 ^ 44, from an r whose lower halfway point is below it.
fn climb(t: u64, r: u64) -> u64
    requires { (t < 2 ^ 62) × Over t r }
    ensures { Root t result }
{
    let mut a = r;
    while square(2 * a + 1) < t {
        a += 1;
    }
    a
}

// The root of t * 2 ^ 44, from any r. If r is the root or one below it, a single square decides: those of the halfway
// points on either side are at least 8 r away, which is d * 2 ^ 46 or a little more. The sum spares a branch that no
// processor foresees.
fn settle(t: u64, r: u64) -> u64
    requires { (2 ^ 60 ≤ t) × (t < 2 ^ 62) × (r < 2 ^ 53) }
    ensures { Root t result }
{
    let f = square(2 * r + 1);
    let d = r / 0x800_0000_0000;
    let a = r + (f < t) as u64;
    if t <= f + d {
        if f < t + d {
            return a;
        }
        return fall(t, a);
    }
    climb(t, a)
}

// Nearly twice the root of v, the number from 1/4 to 1 with these bits. y is √(a / v) for an a from 3/4 to 27/32, since
// the halved bits halve the logarithm, nearly. The polynomial is 1 / √a within 2 parts in 10 ^ 8, so g is √v within as
// much, and a step of Newton's makes it good to nearly the last place.
fn guess(bits: u64) -> f64
    requires { (1020 * 2 ^ 52 ≤ bits) × (bits < 1023 * 2 ^ 52) }
    ensures { T (not (is_nan result)) }
{
    let v = f64::from_bits(bits);
    let y = f64::from_bits(0x5fe4_0000_0000_0000 - bits / 2);
    let w = v * y;
    let a = w * y;
    let b = a * a;
    let p = (2.7590916658 - 4.6226890237 * a)
        + b * ((5.2256305442 - 3.1241564737 * a) + 0.7623489067 * b);
    let g = w * p;
    g + v / g
}

// The root of m * 2 ^ (k + 54), in units of 2 ^ -2150: that of m, or of 2 m for an odd k, at the exponent k / 2.
fn root(m: u64, k: u64) -> f64
    requires { (2 ^ 52 ≤ m) × (m < 2 ^ 53) × (k < 3068) }
    ensures { result ≡ of_bits binary64 (root_bits (m * 2 ^ (k + 54))) }
{
    let odd = k % 2;
    let t = m * 256 * (odd + 1);
    // One less in the last place: the guess is then the root or one below it, and seldom one above.
    let g = guess(1020 * FIELD + odd * FIELD + m - 1);
    let r = settle(t, g.to_bits() % (2 * FIELD));
    f64::from_bits(k / 2 * FIELD + r)
}

// The root of the subnormal b, brought up by its count of leading zeros.
fn tiny(b: u64) -> f64
    requires { (0 < b) × (b < 2 ^ 52) }
    ensures { result ≡ of_bits binary64 (root_bits (b * 2 ^ 1076)) }
{
    let z = b.leading_zeros() as u64;
    root(b << (z - 11), 1033 - z)
}

// The square root, for every x. Zero keeps its sign, +infinity is itself, NaN and negatives give NaN.
pub fn sqrt(x: f64) -> f64
    ensures { result ≡ sqrt_of x }
{
    if x.is_nan() {
        return f64::NAN;
    }
    // Tests in this order and no match, which asks for its literals before the range that nearly every x is in.
    let b = x.to_bits();
    let e = b / FIELD;
    if e == 0 {
        if b == 0 {
            return x;
        }
        return tiny(b);
    }
    if e < 2047 {
        return root(b % FIELD + FIELD, e + 1021);
    }
    if b == INFINITE {
        return x;
    }
    if b == MINUS_ZERO { x } else { f64::NAN }
}
