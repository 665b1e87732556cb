// Whole numbers in decimal, and floats as the sixteen hexadecimal digits of their bits.
ghost use Rattle.std.specs.Prelude.{◌≡◌, ◌%◌};
ghost use Rattle.std.specs.Float.{binary64};
ghost use Rattle.std.specs.Float.Ieee.{to_bits};
ghost use Rattle.spelling.specs.Printed.{decimal, hex_digit, hexadecimal};

use crate::writer::Writer;

// The last hexadecimal digit.
#[tactic(auto, unfolding(spelling::specs::Printed::hex_digit))]
fn hex_digit(b: u64) -> u8
    ensures { result ≡ hex_digit (b % 16) }
{
    let d = (b % 16) as u8;
    if d < 10 { b'0' + d } else { b'a' - 10 + d }
}

// The bits that are written: a NaN has none of its own, so it is tested for first.
fn bits(x: f64) -> u64
    ensures { result ≡ to_bits binary64 x }
{
    if x.is_nan() {
        0x7ff8_0000_0000_0000
    } else {
        x.to_bits()
    }
}

impl Writer<'_> {
    ghost use Rattle.reply.specs.Figures.{whole, float};
    ghost use Rattle.reply.specs.Laid.{next_byte, laying};

    // All the digits, those in front first. A usize has at most twenty.
    #[tactic(auto, using(crate::proofs::Laws::one_digit, crate::proofs::Laws::more_digits))]
    fn digits(&mut self, n: usize)
        ensures { self.new ≡ laying (decimal 19 n) self.old }
    {
        if n < 10 {
            self.byte(b'0' + n as u8);
        } else {
            self.digits(n / 10);
            self.byte(b'0' + (n % 10) as u8);
        }
    }

    // The last k hexadecimal digits, those in front first.
    #[tactic(auto, using(crate::proofs::Laws::no_hex, crate::proofs::Laws::more_hex))]
    fn hex_digits(&mut self, k: usize, b: u64)
        ensures { self.new ≡ laying (hexadecimal k b) self.old }
    {
        if 0 < k {
            self.hex_digits(k - 1, b / 16);
            self.byte(hex_digit(b));
        }
    }

    // A whole number and the byte after it.
    #[tactic(auto, unfolding(crate::specs::Figures::whole))]
    pub(crate) fn whole(&mut self, n: usize, b: u8)
        ensures { self.new ≡ laying (whole n b) self.old }
    {
        self.digits(n);
        self.byte(b);
    }

    // A float and the byte after it.
    #[tactic(auto, unfolding(crate::specs::Figures::float))]
    pub(crate) fn float(&mut self, x: f64, b: u8)
        ensures { self.new ≡ laying (float x b) self.old }
    {
        self.hex_digits(16, bits(x));
        self.byte(b);
    }
}
