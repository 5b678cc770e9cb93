// Numbers: finite or not, read from a pattern, and compared as numbers.
ghost use Rattle.std.specs.Prelude.{◌≡◌};
ghost use Rattle.geometry.specs.Numbers.{number_at, all_finite, same_number, same_numbers, ComparedAsNumbers};

const SIGN: u32 = 0x8000_0000;

const INFINITY: u32 = 0x7f80_0000;

/// Whether each number is finite.
pub fn all_finite(xs: &[f32]) -> bool
    ensures { result ≡ all_finite xs.now }
{
    xs.iter().all(|x| x.is_finite())
}

/// The number that a pattern stands for, unless it is a NaN's.
pub fn number_at(bits: u32) -> Option<f32>
    ensures { result ≡ number_at bits }
{
    if bits % SIGN > INFINITY {
        None
    } else {
        Some(f32::from_bits(bits))
    }
}

/// Whether two are equal as numbers: 0.0 equals -0.0, and a NaN nothing.
// It carries the laws of the comparison that styles and transforms derive.
pub fn same_number(a: f32, b: f32) -> bool
    ensures value { result ≡ same_number a b }
    ensures laws { ComparedAsNumbers }
{
    a == b
}

/// Whether two lists are equal, number by number.
// The name of the definition, for the equality of slices.
pub fn same_numbers(xs: &[f32], ys: &[f32]) -> bool
    ensures { result ≡ same_numbers xs.now ys.now }
{
    xs == ys
}
