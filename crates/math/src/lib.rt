// math.rs of stable-flight as far as guidance uses it: the helpers that saturate, cap and wrap, so
// that a NaN becomes neutral and no bad number panics the loop.
#![tactic(auto)]

pub mod vectors;

ghost use Rattle.std.specs.Prelude.{◌≡◌, true, false};
ghost use Rattle.std.specs.Float.Ieee.{lt};
ghost use Rattle.math.specs.Math.{zero, cap_magnitude, past, saturate_unit, saturate_symmetric, clamp_symmetric, limit_or_zero, clamp_symmetric_each, all_finite, neu_to_ned, tilt_boost, saturate_throttle, guard_sink, shaped_closing_speed, braked_speed, wrap_angle, rem_euclid};
ghost use Rattle.math.specs.Inner.{saturate, within, exceeds, limited_closing_speed, has_plain_square, RootWithin, RootBeyond};

pub use std::f32::consts::{FRAC_PI_2, PI, TAU};
use vectors::{Quaternion, Vec2, Vec3};

// Standard gravity, in m/s².
pub const GRAVITY: f32 = 9.80665;

// v scaled down, keeping its direction, so that its length is at most `max`. A vector of no finite
// length has no direction and becomes zero.
#[tactic(auto, using(crate::proofs::Laws::Length::square_not_below), unfolding(crate::specs::Math::cap_magnitude))]
pub fn cap_magnitude(v: Vec2, max: f32) -> Vec2
    ensures { result ≡ cap_magnitude v max }
{
    let square = v.dot(v);
    if surely_within(square, max) {
        return v;
    }
    let length = floats::sqrt::sqrtf(square);
    if !floats::compare::is_finite(length) {
        return Vec2::zeros();
    }
    if max < length {
        return v * (max / length);
    }
    v
}

// Whether v is at most `limit` long. A NaN on either side is not.
#[tactic(auto, using(crate::proofs::Laws::Length::square_not_below), unfolding(crate::specs::Inner::within))]
pub fn within(v: Vec2, limit: f32) -> bool
    ensures { result ≡ within v limit }
{
    let square = v.dot(v);
    if surely_within(square, limit) {
        return true;
    }
    if surely_beyond(square, limit) {
        return false;
    }
    floats::sqrt::sqrtf(square) <= limit
}

// Whether v is longer than `limit`. A NaN on either side is not, so this is not the opposite of `within`.
#[tactic(auto, using(crate::proofs::Laws::Length::square_not_below), unfolding(crate::specs::Inner::exceeds))]
pub fn exceeds(v: Vec2, limit: f32) -> bool
    ensures { result ≡ exceeds v limit }
{
    let square = v.dot(v);
    if surely_within(square, limit) {
        return false;
    }
    if surely_beyond(square, limit) {
        return true;
    }
    limit < floats::sqrt::sqrtf(square)
}

// The part of v past a length of `band`: zero where v is not longer.
#[tactic(auto, using(crate::proofs::Laws::Length::square_not_below), unfolding(crate::specs::Math::past))]
pub fn past(v: Vec2, band: f32) -> Vec2
    ensures { result ≡ past v band }
{
    let square = v.dot(v);
    if surely_within(square, band) {
        return Vec2::zeros();
    }
    let length = floats::sqrt::sqrtf(square);
    if length > band {
        return v * ((length - band) / length);
    }
    Vec2::zeros()
}

// Whether the limit's square tells without a root that the root of `square` is at most the limit.
fn surely_within(square: f32, limit: f32) -> bool
    requires { lt square zero ≡ false }
    ensures { result ≡ true → RootWithin square limit }
{
    has_plain_square(limit) && square <= limit * limit
}

// Whether the square of twice the limit tells without a root that the root of `square` is more than
// the limit.
fn surely_beyond(square: f32, limit: f32) -> bool
    ensures { result ≡ true → RootBeyond square limit }
{
    let double = 2.0 * limit;
    has_plain_square(limit) && double * double <= square
}

// Whether the limit is so far from underflow and overflow that the root of its square is the limit.
#[tactic(auto, unfolding(crate::specs::Inner::has_plain_square))]
pub fn has_plain_square(limit: f32) -> bool
    ensures { result ≡ has_plain_square limit }
{
    0.0000001 <= limit && limit <= 10000000.0
}

// A command saturated to [-1, 1]; a NaN becomes 0.
pub fn saturate_unit(value: f32) -> f32
    ensures { result ≡ saturate_unit value }
{
    saturate_symmetric(value, 1.0)
}

// `value` saturated to [-limit, limit]; a NaN becomes 0, and a limit that is negative or a NaN counts
// as 0.
#[tactic(auto, unfolding(crate::specs::Math::saturate_symmetric, crate::specs::Math::clamp_symmetric, crate::specs::Inner::saturate))]
pub fn saturate_symmetric(value: f32, limit: f32) -> f32
    ensures { result ≡ saturate_symmetric value limit }
{
    let limit = limit_or_zero(limit);
    saturate(value, -limit, limit)
}

// `value` clamped to [low, high]; a NaN becomes 0.
#[tactic(auto, unfolding(crate::specs::Inner::saturate))]
fn saturate(value: f32, low: f32, high: f32) -> f32
    ensures { result ≡ saturate value low high }
{
    if value.is_nan() {
        return 0.0;
    }
    floats::minmax::clamp(value, low, high)
}

// `value` clamped to [-limit, limit]; a NaN stays one, and a limit that is negative or a NaN counts
// as 0.
#[tactic(auto, unfolding(crate::specs::Math::clamp_symmetric))]
pub fn clamp_symmetric(value: f32, limit: f32) -> f32
    ensures { result ≡ clamp_symmetric value limit }
{
    let limit = limit_or_zero(limit);
    floats::minmax::clamp(value, -limit, limit)
}

// A limit as given where it is non-negative, else 0, for a NaN too.
#[tactic(auto, unfolding(crate::specs::Math::limit_or_zero))]
pub fn limit_or_zero(limit: f32) -> f32
    ensures { result ≡ limit_or_zero limit }
{
    if limit >= 0.0 { limit } else { 0.0 }
}

// `clamp_symmetric` of each component.
#[tactic(auto, unfolding(crate::specs::Math::clamp_symmetric_each))]
pub fn clamp_symmetric_each(value: Vec2, limit: f32) -> Vec2
    ensures { result ≡ clamp_symmetric_each value limit }
{
    Vec2 {
        x: clamp_symmetric(value.x, limit),
        y: clamp_symmetric(value.y, limit),
    }
}

// Whether every component is finite.
#[tactic(auto, unfolding(crate::specs::Math::all_finite))]
pub fn all_finite(value: Vec2) -> bool
    ensures { result ≡ all_finite value }
{
    floats::compare::is_finite(value.x) && floats::compare::is_finite(value.y)
}

// From the state's frame, north, east and up, to north, east and down.
pub fn neu_to_ned(v: Vec3) -> Vec3
    ensures { result ≡ neu_to_ned v }
{
    Vec3 { z: -v.z, ..v }
}

// The factor that keeps a thrust's vertical part while tilted: 1 / cos(tilt), at most 2, falling from
// a tilt of 84 degrees on to 0 at 90. It is 1 where the cosine is not finite.
#[tactic(auto, unfolding(crate::specs::Math::tilt_boost, crate::specs::Math::tilt_cosine))]
pub fn tilt_boost(attitude: Quaternion) -> f32
    ensures { result ≡ tilt_boost attitude }
{
    let cosine = 1.0 - 2.0 * (attitude.i * attitude.i + attitude.j * attitude.j);
    if !floats::compare::is_finite(cosine) {
        return 1.0;
    }
    let upright = floats::minmax::clamp(cosine / 0.1, 0.0, 1.0);
    upright / floats::minmax::max(cosine, 0.5)
}

// A throttle saturated to [0, 1]; a NaN becomes 0.
#[tactic(auto, unfolding(crate::specs::Math::saturate_throttle, crate::specs::Inner::saturate))]
pub fn saturate_throttle(value: f32) -> f32
    ensures { result ≡ saturate_throttle value }
{
    saturate(value, 0.0, 1.0)
}

// The sink guard: `thrust` raised by `gain` for each m/s of sink past `limit_mps`, saturated to [0, 1];
// none unless sinking past a positive limit.
#[tactic(auto, unfolding(crate::specs::Math::guard_sink))]
pub fn guard_sink(thrust: f32, climb_mps: f32, limit_mps: f32, gain: f32) -> Option<f32>
    ensures { result ≡ guard_sink thrust climb_mps limit_mps gain }
{
    let excess_mps = -limit_mps - climb_mps;
    let sinks = limit_mps > 0.0 && excess_mps > 0.0;
    sinks.then(|| saturate_throttle(thrust + gain * excess_mps))
}

// The speed toward a target `distance_m` away that a deceleration of `accel_mps2` can bring to zero
// there; the three numbers belong to three things, so they are no struct. It is p * distance near it, a
// square root beyond. A distance that is not positive gives 0.
#[tactic(auto, unfolding(crate::specs::Math::shaped_closing_speed))]
pub fn shaped_closing_speed(distance_m: f32, p: f32, accel_mps2: f32) -> f32
    ensures { result ≡ shaped_closing_speed distance_m p accel_mps2 }
{
    if distance_m.is_nan() || distance_m <= 0.0 {
        return 0.0;
    }
    // A NaN, or a deceleration that is not positive: none.
    let accel_mps2 = if accel_mps2 > 0.0 { accel_mps2 } else { 0.0 };
    braked_speed(distance_m, p, accel_mps2)
}

// The same for a positive distance and a deceleration that is not negative.
#[tactic(auto, unfolding(crate::specs::Math::braked_speed))]
fn braked_speed(distance_m: f32, p: f32, accel_mps2: f32) -> f32
    ensures { result ≡ braked_speed distance_m p accel_mps2 }
{
    if p.is_nan() || p <= 0.0 {
        return floats::sqrt::sqrtf(2.0 * accel_mps2 * distance_m);
    }
    let linear_m = accel_mps2 / (p * p);
    if accel_mps2 == 0.0 || distance_m <= linear_m {
        return p * distance_m;
    }
    floats::sqrt::sqrtf(2.0 * accel_mps2 * (distance_m - linear_m / 2.0))
}

// `shaped_closing_speed`, but at most `limit_mps`. Where the squares tell that the limit is reached,
// no root is taken.
#[tactic(auto, unfolding(crate::specs::Inner::limited_closing_speed))]
pub fn limited_closing_speed(distance_m: f32, p: f32, accel_mps2: f32, limit_mps: f32) -> f32
    ensures { result ≡ limited_closing_speed distance_m p accel_mps2 limit_mps }
{
    if surely_reaches(distance_m, p, accel_mps2, limit_mps) {
        return limit_mps;
    }
    floats::minmax::min(shaped_closing_speed(distance_m, p, accel_mps2), limit_mps)
}

// Whether the squares tell without a root that the closing speed reaches `limit_mps`.
#[tactic(auto, using(crate::proofs::Laws::Reached::told_reached))]
fn surely_reaches(distance_m: f32, p: f32, accel_mps2: f32, limit_mps: f32) -> bool
    ensures { result ≡ true → limited_closing_speed distance_m p accel_mps2 limit_mps ≡ limit_mps }
{
    let linear_m = accel_mps2 / (p * p);
    distance_m > 0.0
        && p > 0.0
        && accel_mps2 > 0.0
        && linear_m < distance_m
        && has_plain_square(limit_mps)
        && limit_mps * limit_mps <= 2.0 * accel_mps2 * (distance_m - linear_m / 2.0)
}

// An angle in radians wrapped to [-π, π); one that is not finite gives a NaN.
#[tactic(auto, unfolding(crate::specs::Math::wrap_angle))]
pub fn wrap_angle(angle: f32) -> f32
    ensures { result ≡ wrap_angle angle }
{
    rem_euclid(angle + PI, TAU) - PI
}

// The remainder from 0 on for a positive divisor: `rem` has the sign of `value`, so a negative one is
// shifted up, and a sum that rounds to the divisor stays that. A value between -divisor and divisor is
// its own remainder. (std's goes by `%`, which is a call of the C library's fmodf.)
#[tactic(auto, unfolding(crate::specs::Math::rem_euclid), using(crate::proofs::Laws::Wrap::rem_euclid_inside, crate::proofs::Laws::Wrap::rem_euclid_negative))]
pub fn rem_euclid(value: f32, divisor: f32) -> f32
    ensures { result ≡ rem_euclid value divisor }
{
    if 0.0 <= value {
        if value < divisor {
            return value;
        }
    } else if -divisor < value {
        return value + divisor;
    }
    let remainder = floats::rem::rem(value, divisor);
    if remainder < 0.0 {
        return remainder + divisor;
    }
    remainder
}
