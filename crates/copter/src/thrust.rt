// How a thrust is boosted, clipped, floored and guarded, each with whether it was changed.
ghost use Rattle.std.specs.Prelude.{◌≡◌};
ghost use Rattle.copter.specs.Thrust.{clip_thrust, boost, floor_thrust, guarded, hold_piloted, hold_absolute, boosted};

use crate::config::{CopterGuidanceConfig, ThrustLimits};
use math::vectors::Quaternion;

// A thrust, which stands in both cases, and whether something changed it.
#[derive(Clone, Copy)]
pub struct Thrust {
    pub value: f32,
    pub saturated: bool,
}

// A piloted thrust, whether something changed it, and whether the throttle is idle; it stands in each case.
// It has a `Thrust`'s fields as its own, as the definitions name them.
#[derive(Clone, Copy)]
pub struct PilotedThrust {
    pub value: f32,
    pub saturated: bool,
    pub idle: bool,
}

// Saturated to [0, 1]; a NaN becomes 0 and is not flagged.
#[tactic(auto, unfolding(crate::specs::Thrust::clip_thrust))]
pub fn clip_thrust(thrust: f32) -> Thrust
    ensures { result ≡ clip_thrust thrust }
{
    Thrust {
        value: math::saturate_throttle(thrust),
        saturated: thrust < 0.0 || thrust > 1.0,
    }
}

// The stick's throttle boosted for the tilt, up to the ceiling unless the stick itself is above it. It has
// the form of `floor_thrust`, whose bound is below where this one's is above: one function for both would be
// passed the comparison.
#[tactic(auto, unfolding(crate::specs::Thrust::boost))]
pub fn boost(throttle: f32, attitude: Quaternion, max_boost_thrust: f32) -> Thrust
    ensures { result ≡ boost throttle attitude max_boost_thrust }
{
    let boosted = throttle * math::tilt_boost(attitude);
    let ceiling = floats::minmax::max(max_boost_thrust, throttle);
    if boosted > ceiling {
        return Thrust {
            value: ceiling,
            saturated: true,
        };
    }
    Thrust {
        value: boosted,
        saturated: false,
    }
}

// Raised to the floor.
#[tactic(auto, unfolding(crate::specs::Thrust::floor_thrust))]
pub fn floor_thrust(thrust: f32, min_thrust: f32) -> Thrust
    ensures { result ≡ floor_thrust thrust min_thrust }
{
    if thrust < min_thrust {
        return Thrust {
            value: min_thrust,
            saturated: true,
        };
    }
    Thrust {
        value: thrust,
        saturated: false,
    }
}

// Raised by the sink guard.
#[tactic(auto, unfolding(crate::specs::Thrust::guarded, crate::specs::Thrust::guarded_by))]
fn guarded(thrust: Thrust, climb_mps: f32, limits: ThrustLimits) -> Thrust
    ensures { result ≡ guarded thrust climb_mps limits }
{
    math::guard_sink(
        thrust.value,
        climb_mps,
        limits.sink_limit_mps,
        limits.sink_gain,
    )
    .map_or(
        thrust,
        |value| Thrust {
            value,
            saturated: true,
        },
    )
}

// The raw throttle against field 19 decides whether it is idle, and a NaN is. An idle throttle passes
// the thrust through; any other is floored and guarded.
#[tactic(auto, unfolding(crate::specs::Thrust::hold_piloted))]
pub fn hold_piloted(
    throttle: f32,
    thrust: Thrust,
    climb_mps: f32,
    idle_throttle: f32,
    limits: ThrustLimits,
) -> PilotedThrust
    ensures { result ≡ hold_piloted throttle thrust climb_mps idle_throttle limits }
{
    if throttle > idle_throttle {
        let floored = floor_thrust(thrust.value, limits.min_thrust);
        let held = guarded(floored, climb_mps, limits);
        return PilotedThrust {
            value: held.value,
            saturated: thrust.saturated || held.saturated,
            idle: false,
        };
    }
    PilotedThrust {
        value: thrust.value,
        saturated: thrust.saturated,
        idle: true,
    }
}

// The thrust of an absolute command: clipped, not boosted.
#[tactic(auto, unfolding(crate::specs::Thrust::hold_absolute))]
pub fn hold_absolute(thrust: f32, climb_mps: f32, config: CopterGuidanceConfig) -> PilotedThrust
    ensures { result ≡ hold_absolute thrust climb_mps config }
{
    hold_piloted(
        thrust,
        clip_thrust(thrust),
        climb_mps,
        config.guidance.idle_throttle,
        config.thrust,
    )
}

// The stick's throttle, boosted for the tilt and then clipped.
#[tactic(auto, unfolding(crate::specs::Thrust::boosted))]
pub fn boosted(throttle: f32, attitude: Quaternion, max_boost_thrust: f32) -> Thrust
    ensures { result ≡ boosted throttle attitude max_boost_thrust }
{
    let raised = boost(throttle, attitude, max_boost_thrust);
    let clipped = clip_thrust(raised.value);
    Thrust {
        value: clipped.value,
        saturated: raised.saturated || clipped.saturated,
    }
}
