// Conversions between the patterns of binary32 and binary16.
#![tactic(auto)]

ghost use Rattle.std.specs.Prelude.{◌≡◌, ℕ, ◌%◌, ◌^◌, ◌<◌, ◌≤◌, from_bits, nat_le};
ghost use Rattle.std.specs.Float.{binary32};
ghost use Rattle.std.specs.Float.Ieee.Exact.{HasValue};
ghost use Rattle.math.specs.Sizes.{single_size, half_size, Means};
ghost use Rattle.math.specs.Halves.{Nearest, Rounded, RoundsTo, NoneNearer, Exact, WidensTo};
ghost use Rattle.math.specs.Worked.{Worked};

const SIGN_32: u32 = 0x8000_0000;

const SIGN_16: u32 = 0x8000;

const INFINITY_32: u32 = 0x7f80_0000;

const INFINITY_16: u32 = 0x7c00;

const NAN_16: u32 = 0x7e00;
// The lowest bit of a single's exponent, which is one more than its fractions.
const EXPONENT_32: u32 = 0x80_0000;

const EXPONENT_16: u32 = 0x400;
// A half's fraction stands this many times higher in a single.
const FRACTION_STEP: u32 = 0x2000;
// The singles 65520, 2^-14 and 2^-25: from the first a half is infinite, below the second
// subnormal and below the third zero.
const OVERFLOW: u32 = 0x477f_f000;

const SMALLEST_NORMAL: u32 = 0x3880_0000;

const SMALLEST_ROUNDED: u32 = 0x3300_0000;

// The half nearest to `u`, where it is normal: the exponent is shifted, and the fraction loses 13
// bits.
fn round_normal(u: u32) -> u32
    requires from { 0x3880_0000 ≤ u }
    requires to { u < 0x477f_f000 }
    ensures { Nearest (single_size u) result }
{
    (u / 0x1000 + 1) / 2 - 0x1_c000
}

// The half nearest to `u`, where it is subnormal: a count of units of 2^-24.
fn round_subnormal(u: u32) -> u32
    requires from { 0x3300_0000 ≤ u }
    requires to { u < 0x3880_0000 }
    ensures { Nearest (single_size u) result }
{
    let exponent = u / EXPONENT_32;
    let significand = EXPONENT_32 + u % EXPONENT_32;
    ((significand >> (125 - exponent)) + 1) / 2
}

// The half of a single without its sign.
fn round_size(u: u32) -> u32
    requires { u < 0x8000_0000 }
    ensures { Rounded u result }
{
    if u > INFINITY_32 {
        NAN_16
    } else if u >= OVERFLOW {
        INFINITY_16
    } else if u >= SMALLEST_NORMAL {
        round_normal(u)
    } else if u >= SMALLEST_ROUNDED {
        round_subnormal(u)
    } else {
        0
    }
}

/// The half that a single rounds to, ties away from zero.
pub fn f32_to_f16(bits: u32) -> u16
    ensures half { RoundsTo bits result }
    ensures only { (h : ℕ) → RoundsTo bits h → h ≡ result }
    ensures nearest { NoneNearer bits result }
    ensures means { Means bits }
{
    let half = round_size(bits % SIGN_32);
    (bits / SIGN_32 * SIGN_16 + half) as u16
}

// The single of a subnormal half, which is shifted until its leading digit is in place.
fn widen_subnormal(n: u32) -> u32
    requires from { 0 < n }
    requires to { n < 1024 }
    ensures { Exact n result }
{
    let shift = n.leading_zeros() - EXPONENT_16.leading_zeros();
    (112 - shift) * EXPONENT_32 + (n << shift) * FRACTION_STEP
}

// The single of a half without its sign.
fn widen_size(n: u32) -> u32
    requires { n < 0x8000 }
    ensures { Exact n result }
{
    if n > INFINITY_16 {
        0x7fc0_0000 + n % 512 * FRACTION_STEP
    } else if n == INFINITY_16 {
        INFINITY_32
    } else if n >= EXPONENT_16 {
        n * FRACTION_STEP + 0x3800_0000
    } else if n > 0 {
        widen_subnormal(n)
    } else {
        0
    }
}

/// The single that a half is; a NaN comes out quiet.
pub fn f16_to_f32(h: u16) -> u32
    ensures exact { WidensTo h result }
    ensures only { (b : ℕ) → WidensTo h b → b ≡ result }
    ensures number { h % 0x8000 < 0x7c00 → HasValue (from_bits binary32 result) (nat_le 0x8000 h) (half_size (h % 0x8000)) (2 ^ 149) }
    ensures means { Means result }
    ensures back { h % 0x8000 ≤ 0x7c00 → RoundsTo result h }
{
    let bits = h as u32;
    let single = widen_size(bits % SIGN_16);
    bits / SIGN_16 * SIGN_32 + single
}

/// The worked halves, which the definitions give.
pub fn worked_halves() -> u8
    ensures { Worked }
{
    4
}

#[cfg(test)]
mod tests {
    use super::*;

    // The examples of binary16 in Wikipedia's "Half-precision floating-point format", each with the
    // single of the value that stands there.
    const PUBLISHED: [(u16, u32); 13] = [
        (0x0000, 0x0000_0000), // 0
        (0x0001, 0x3380_0000), // 0.000000059604645, the smallest subnormal
        (0x03ff, 0x387f_c000), // 0.000060975552, the largest subnormal
        (0x0400, 0x3880_0000), // 0.00006103515625, the smallest normal
        (0x3555, 0x3eaa_a000), // 0.33325195, the nearest to 1/3
        (0x3bff, 0x3f7f_e000), // 0.99951172, the largest below 1
        (0x3c00, 0x3f80_0000), // 1
        (0x3c01, 0x3f80_2000), // 1.00097656, the smallest above 1
        (0x7bff, 0x477f_e000), // 65504, the largest
        (0x7c00, 0x7f80_0000), // infinity
        (0x8000, 0x8000_0000), // -0
        (0xc000, 0xc000_0000), // -2
        (0xfc00, 0xff80_0000), // -infinity
    ];

    // Singles that are no half: ties, the two sides of 65520, and a NaN with its sign.
    const ROUNDED: [(u32, u16); 6] = [
        (0x3f80_1000, 0x3c01),
        (0x3300_0000, 0x0001),
        (0x32ff_ffff, 0x0000),
        (0x477f_efff, 0x7bff),
        (0x477f_f000, 0x7c00),
        (0xffc0_0001, 0xfe00),
    ];

    #[test]
    fn vectors(rt: HostRuntime) {
        for (half, single) in PUBLISHED {
            assert_eq!(rt; f16_to_f32(half), single);
            assert_eq!(rt; f32_to_f16(single), half);
        }
        for (single, half) in ROUNDED {
            assert_eq!(rt; f32_to_f16(single), half);
        }
        assert_eq!(rt; f16_to_f32(0xfc01), 0xffc0_2000);
    }
}
