// An `f64` as the nearest `f32`, a tie to the even one.
ghost use Rattle.std.specs.Prelude.{◌≡◌};
ghost use Rattle.std.specs.Float.{binary32};
ghost use Rattle.floats.specs.Narrow.{convert};

use crate::bits;

// The weight of the sign's bit in a pattern of `f64`, 2^63.
const SIGN64: u64 = 0x8000_0000_0000_0000;

// The same in a pattern of `f32`, 2^31.
const SIGN32: u64 = bits::SIGN as u64;

// The pattern, as an `f64`, of 2^-126, the smallest normal `f32`.
const NORMAL: u64 = 0x3810_0000_0000_0000;

// The pattern, as an `f64`, of 2^128, which is too large for an `f32`.
const TOO_LARGE: u64 = 0x47F0_0000_0000_0000;

// 2^-97: at this size the last digit of an `f64` is worth 2^-149, the smallest `f32`.
const ALIGN: f64 = 6.310887241768095e-30;

// Its pattern.
const ALIGN_BITS: u64 = 0x39E0_0000_0000_0000;

// By how much the exponent's field of an `f64` is larger, 896, at its weight there, 2^52.
const REBIAS: u64 = 0x3800_0000_0000_0000;

// What the last digit of an `f32` is worth in the digits of an `f64`, 2^29.
const STEP: u64 = 0x2000_0000;

// One less than half of that.
const BELOW_HALF: u64 = 0x0FFF_FFFF;

// The pattern of the infinity as an `f32`.
const INFINITE: u64 = bits::INFINITE as u64;

// In the normal range the pattern is rounded as a number: the sum reaches the next step where what is
// dropped is above half of one, or is half of one and the kept digits are odd. A carry out of the
// digits goes on into the exponent's field. What is smaller is rounded by an addition. A NaN stays one.
// (std's `nearest_f64_to_f32_with_nan` takes the number apart and rounds it as one of 128 bits.)
pub fn narrow(x: f64) -> f32
    ensures { result ≡ convert binary32 x }
{
    if x.is_nan() {
        return f32::NAN;
    }
    let bits = f64::to_bits(x);
    let sign = bits / SIGN64 * SIGN32;
    let size = bits % SIGN64;
    if NORMAL <= size && size < TOO_LARGE {
        let m = size - REBIAS;
        return f32::from_bits((sign + (m + BELOW_HALF + m / STEP % 2) / STEP) as u32);
    }
    if size < NORMAL {
        let sum = f64::from_bits(size) + ALIGN;
        return f32::from_bits((sign + (f64::to_bits(sum) - ALIGN_BITS)) as u32);
    }
    f32::from_bits((sign + INFINITE) as u32)
}
