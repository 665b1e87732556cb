// Floats: sixteen small hexadecimal digits, which are the float's bits.
ghost use Rattle.std.specs.Prelude.{◌≡◌, ◌<◌, IfSome, IfOk};
ghost use Rattle.std.specs.Float.{binary64};
ghost use Rattle.std.specs.Float.Ieee.{of_bits};
ghost use Rattle.spelling.specs.Floating.{hex_of, hex_at, bits_at, float_at};

use crate::places::byte;

// What a hexadecimal digit stands for.
#[tactic(auto, unfolding(crate::specs::Floating::hex_of))]
fn hex_of(b: u8) -> Option<u64>
    ensures value { result ≡ hex_of b }
    ensures small { IfSome result (λ d. d < 16) }
{
    match b {
        b'0'..=b'9' => Some(u64::from(b - b'0')),
        b'a'..=b'f' => Some(u64::from(b - b'a') + 10),
        _ => None,
    }
}

// The digit that stands there.
#[tactic(auto, unfolding(crate::specs::Floating::hex_at))]
fn hex(s: &[u8], at: usize) -> Result<(u64, usize), usize>
    ensures value { result ≡ hex_at s.now at }
    ensures small { IfOk result (λ r. r.0 < 16) }
{
    Ok((hex_of(byte(s, at)?).ok_or(at)?, at + 1))
}

fn bits(s: &[u8], at: usize) -> Result<(u64, usize), usize>
    ensures { result ≡ bits_at s.now at }
{
    let mut bits = 0;
    let mut next = at;
    for _i in 0..16usize {
        let (d, after) = hex(s, next)?;
        bits = 16 * bits + d;
        next = after;
    }
    Ok((bits, next))
}

// The float with these bits. A pattern with a full exponent and more is a NaN's, of which there is one.
fn float_of(bits: u64) -> f64
    ensures { result ≡ of_bits binary64 bits }
{
    if bits % 0x8000_0000_0000_0000 > 0x7ff0_0000_0000_0000 {
        f64::NAN
    } else {
        f64::from_bits(bits)
    }
}

// The one way to read a float, which gives the place after it too; where a digit is missing or wrong, its place.
#[tactic(auto, unfolding(crate::specs::Floating::float_at))]
pub fn float(s: &[u8], at: usize) -> Result<(f64, usize), usize>
    ensures { result ≡ float_at s.now at }
{
    let (bits, next) = bits(s, at)?;
    Ok((float_of(bits), next))
}
