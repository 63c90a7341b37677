// atanf and atan2f, from FreeBSD's msun (s_atanf.c and e_atan2f.c), in `f32`. Where the Rust's libm parts
// from msun, at sizes from 2^26 on and in `far_above`, it is followed.
//
// The ranges are told by the pattern of a size, as in both.
ghost use Rattle.std.specs.Prelude.{◌≡◌, if◌then◌else◌};
ghost use Rattle.floats.specs.Ops.{◌⊖◌};
ghost use Rattle.floats.specs.Atan.{pi, pi_low, atanf_rest, atanf_from, atanf_large, atanf, far_above, atan2f_infinite, atan2f_finite, atan2f_nonzero, atan2f};

use crate::bits::{INFINITE, TINY};
use crate::{bits, compare};
use std::f32::consts::{FRAC_PI_2, FRAC_PI_4, PI};

// What π has beyond its `f32`.
const PI_LOW: f32 = -0.00000008742278;

// The `f32` below π/2. `FRAC_PI_2` is the one above, which is nearer.
const BELOW_PI_2: f32 = 1.5707963;

// 3π/4.
const THREE_PI_4: f32 = 2.3561945;

// The pattern of 7/16.
const SMALL: u32 = 0x3EE0_0000;

// The pattern of 2^26.
const HUGE: u32 = 0x4C80_0000;

// By how much the patterns of 2^26 * x and of x differ.
const FAR: u32 = 0x0D00_0000;

// x - atan x for x below 7/16 in size.
#[tactic(auto, unfolding(crate::specs::Atan::atanf_rest), using(crate::proofs::Laws::Fields::negated))]
fn atanf_rest(x: f32) -> f32
    ensures { result ≡ atanf_rest x }
{
    let z = x * x;
    let w = z * z;
    let s1 = z * (0.33333328 + w * (0.14253636 + w * 0.061687607));
    let s2 = w * (-0.19999158 + w * -0.106480174);
    x * (s1 + s2)
}

// atan t and an angle, given in two parts, added up.
#[tactic(auto, unfolding(crate::specs::Atan::atanf_from))]
fn atanf_from(high: f32, low: f32, t: f32) -> f32
    ensures { result ≡ atanf_from high low t }
{
    high - (atanf_rest(t) - low - t)
}

// The arctangent of x from 7/16 on, by its distance from atan 0.5, atan 1, atan 1.5 or π/2.
#[tactic(auto, unfolding(crate::specs::Atan::atanf_large))]
fn atanf_large(x: f32) -> f32
    ensures { result ≡ atanf_large x }
{
    if x < 1.1875 {
        if x < 0.6875 {
            return atanf_from(0.4636476, 0.0000000050121582, (2.0 * x - 1.0) / (2.0 + x));
        }
        return atanf_from(0.7853981, 0.000000037748947, (x - 1.0) / (x + 1.0));
    }
    if x < 2.4375 {
        return atanf_from(0.9827937, 0.000000034473217, (x - 1.5) / (1.0 + 1.5 * x));
    }
    atanf_from(BELOW_PI_2, 0.000000075497894, -1.0 / x)
}

// The arctangent of x, in radians, from -π/2 to π/2. From 2^26 on in size it has that of the `f32` below π/2,
// as in libm. A NaN gives a NaN, and a zero itself.
#[tactic(auto, unfolding(crate::specs::Atan::atanf), using(crate::proofs::Laws::Sizes::by_pattern, crate::proofs::Laws::Atan::atanf_nan))]
pub fn atanf(x: f32) -> f32
    ensures { result ≡ atanf x }
{
    if x.is_nan() {
        return x;
    }
    let size = bits::size_bits(x);
    if size < SMALL {
        if size < TINY {
            return x;
        }
        return x - atanf_rest(x);
    }
    if HUGE <= size {
        return compare::with_sign(x < 0.0, BELOW_PI_2);
    }
    compare::with_sign(x < 0.0, atanf_large(compare::abs(x)))
}

// Whether y is more than 2^26 times x in size, as the patterns tell: libm's test, and not msun's.
#[tactic(auto, using(crate::proofs::Laws::Sign::size_below_top))]
fn far_above(y: f32, x: f32) -> bool
    ensures { result ≡ far_above y x }
{
    bits::size_bits(x) + FAR < bits::size_bits(y)
}

// The angle of (x, y) where x is infinite.
#[tactic(auto, unfolding(crate::specs::Atan::atan2f_infinite), using(crate::proofs::Laws::Sizes::by_pattern))]
fn atan2f_infinite(y: f32, x: f32) -> f32
    ensures { result ≡ atan2f_infinite y x }
{
    let flip = compare::is_negative(y);
    if bits::size_bits(y) == INFINITE {
        if compare::is_negative(x) {
            return compare::with_sign(flip, THREE_PI_4);
        }
        return compare::with_sign(flip, FRAC_PI_4);
    }
    if compare::is_negative(x) {
        return compare::with_sign(flip, PI);
    }
    compare::with_sign(flip, 0.0)
}

// The angle whose distance from the negative half of the x axis is z, above it or below.
fn from_left(below: bool, z: f32) -> f32
    ensures { result ≡ (if below then (z ⊖ pi_low ⊖ pi) else (pi ⊖ (z ⊖ pi_low))) }
{
    if below {
        return z - PI_LOW - PI;
    }
    PI - (z - PI_LOW)
}

// The angle of (x, y), neither of which is zero or infinite, where y is not far above x.
#[tactic(auto, unfolding(crate::specs::Atan::atan2f_finite))]
fn atan2f_finite(y: f32, x: f32) -> f32
    ensures { result ≡ atan2f_finite y x }
{
    let below = compare::is_negative(y);
    if !compare::is_negative(x) {
        return compare::with_sign(below, atanf(compare::abs(y / x)));
    }
    if far_above(x, y) {
        return from_left(below, 0.0);
    }
    from_left(below, atanf(compare::abs(y / x)))
}

// The angle of (x, y), neither of which is zero.
#[tactic(auto, unfolding(crate::specs::Atan::atan2f_nonzero), using(crate::proofs::Laws::Sizes::by_pattern))]
fn atan2f_nonzero(y: f32, x: f32) -> f32
    ensures { result ≡ atan2f_nonzero y x }
{
    if bits::size_bits(x) == INFINITE {
        return atan2f_infinite(y, x);
    }
    // Not `||`, which is compiled to two tests and one branch.
    if far_above(y, x) {
        return compare::with_sign(compare::is_negative(y), FRAC_PI_2);
    }
    if bits::size_bits(y) == INFINITE {
        return compare::with_sign(compare::is_negative(y), FRAC_PI_2);
    }
    atan2f_finite(y, x)
}

// The angle of (x, y), in radians, from -π to π. Zeros and infinities count with their signs, and a
// NaN gives a NaN.
#[tactic(auto, unfolding(crate::specs::Atan::atan2f), using(crate::proofs::Laws::Special::is_nan_lem))]
pub fn atan2f(y: f32, x: f32) -> f32
    ensures { result ≡ atan2f y x }
{
    if x.is_nan() {
        return x;
    }
    if y.is_nan() {
        return y;
    }
    if x == 1.0 {
        return atanf(y);
    }
    if y == 0.0 {
        if compare::is_negative(x) {
            return compare::with_sign(compare::is_negative(y), PI);
        }
        return y;
    }
    if x == 0.0 {
        return compare::with_sign(compare::is_negative(y), FRAC_PI_2);
    }
    atan2f_nonzero(y, x)
}
