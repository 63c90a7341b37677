// Tests of one float: NaN, finite; its size and its sign.
ghost use Rattle.std.specs.Prelude.{◌≡◌, if◌then◌else◌, is_nan};
ghost use Rattle.std.specs.Float.Ieee.{neg};
ghost use Rattle.std.specs.Float.Ieee.Scale.{finite};
ghost use Rattle.floats.specs.Compare.{finite_or_none, abs, is_negative, signum};

use crate::bits::{SIGN, to_bits};

pub fn is_nan(x: f32) -> bool
    ensures { result ≡ is_nan x }
{
    x.is_nan()
}

// std's, in the word of specs/.
#[tactic(auto, using(crate::proofs::Laws::Special::same_word))]
pub fn is_finite(x: f32) -> bool
    ensures { result ≡ finite x }
{
    x.is_finite()
}

// x where it is finite, else none.
#[tactic(auto, unfolding(crate::specs::Compare::finite_or_none))]
pub fn finite(x: f32) -> Option<f32>
    ensures { result ≡ finite_or_none x }
{
    is_finite(x).then_some(x)
}

// The size: x without the sign's bit. A NaN stays one, and both zeros give +0.0. (std's `abs` branches
// on the sign where this clears a bit.)
#[tactic(auto, unfolding(crate::specs::Compare::abs), using(crate::proofs::Laws::Special::is_nan_lem, crate::proofs::Laws::Sign::cleared))]
pub fn abs(x: f32) -> f32
    ensures { result ≡ abs x }
{
    if x.is_nan() {
        return x;
    }
    f32::from_bits(f32::to_bits(x) % SIGN)
}

// Whether x has the sign of a number below zero, as -0.0 has. A NaN has not, and std's
// `is_sign_negative` asks for none.
#[tactic(auto, using(crate::proofs::Laws::Sign::sign_bit))]
pub fn is_negative(x: f32) -> bool
    ensures { result ≡ is_negative x }
{
    SIGN <= to_bits(x)
}

// 1.0 with the sign of x, a zero's too; a NaN stays one. (std's `signum` takes thrice the instructions.)
#[tactic(auto, unfolding(crate::specs::Compare::signum), using(crate::proofs::Laws::Special::is_nan_lem, crate::proofs::Laws::Sign::signum_by_sign))]
pub fn signum(x: f32) -> f32
    ensures { result ≡ signum x }
{
    if x.is_nan() {
        return x;
    }
    if is_negative(x) { -1.0 } else { 1.0 }
}

// x with the sign flipped where `flip` is true.
pub fn with_sign(flip: bool, x: f32) -> f32
    ensures { result ≡ (if flip then neg x else x) }
{
    if flip {
        return -x;
    }
    x
}
