// How loops are said and proved: the definitions of specs/ and the laws of proofs/, which every crate's contracts and proofs cite; and a
// question about whole numbers that rooms of matrices ask.

#![tactic(auto)]

ghost use Rattle.std.specs.Prelude.{◌≡◌, ◌*◌, leb};

// Whether `len` places hold a table of `rows` rows and `cols` columns, whatever the three numbers are: nothing wraps.
pub fn holds(len: usize, rows: usize, cols: usize) -> bool
    ensures { result ≡ leb (rows * cols) len }
{
    rows.checked_mul(cols).is_some_and(|n| n <= len)
}
