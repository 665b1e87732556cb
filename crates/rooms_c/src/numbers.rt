// `floats`, `slices` and the root.
ghost use Rattle.std.specs.Prelude.{◌≡◌, get_or, set};
ghost use Rattle.std.specs.Float.{nan};
ghost use Rattle.std.specs.Float.Ieee.Scale.{finite};
ghost use Rattle.floats.specs.Magnitude.{abs_of, magnitude_of, max_of};
ghost use Rattle.root.specs.Root.{sqrt_of};

#[unsafe(no_mangle)]
pub extern "C" fn rooms_abs(x: f64) -> f64
    ensures { result ≡ abs_of x }
{
    floats::abs(x)
}

#[unsafe(no_mangle)]
pub extern "C" fn rooms_is_finite(x: f64) -> bool
    ensures { result ≡ finite x }
{
    floats::is_finite(x)
}

#[unsafe(no_mangle)]
pub extern "C" fn rooms_max(a: f64, b: f64) -> f64
    ensures { result ≡ max_of a b }
{
    floats::max(a, b)
}

#[unsafe(no_mangle)]
pub extern "C" fn rooms_magnitude(x: f64) -> u64
    ensures { result ≡ magnitude_of x }
{
    floats::magnitude(x)
}

#[unsafe(no_mangle)]
pub extern "C" fn rooms_handed_out(x: f64) -> f64
    ensures { result ≡ x }
{
    floats::handed_out(x)
}

#[unsafe(no_mangle)]
pub extern "C" fn rooms_get(s: &[f64], i: usize) -> f64
    ensures { result ≡ get_or s.now i nan }
{
    slices::get_or(s, i, f64::NAN)
}

#[unsafe(no_mangle)]
pub extern "C" fn rooms_put(s: &mut [f64], i: usize, v: f64)
    ensures { s.new ≡ set s.old i v }
{
    slices::put(s, i, v);
}

#[unsafe(no_mangle)]
pub extern "C" fn rooms_sqrt(x: f64) -> f64
    ensures { result ≡ sqrt_of x }
{
    root::sqrt(x)
}
