// Lateral control, from controllers/lateral.rs: the position error gives a velocity, and the velocity
// error an acceleration, north and east.
#![tactic(auto)]

ghost use Rattle.std.specs.Prelude.{◌≡◌};
ghost use Rattle.lateral.specs.Lateral.{config_of, fresh, max_speed, braking_decel, closing_velocity, shape, hold_against_limit, desired_velocity, tracked, neutral, control};

use controllers::Gains;
use controllers::derivative::DerivativeState;
use math::vectors::Vec2;

// `position_p` turns metres into m/s, and the velocity gains turn m/s into m/s². The integral, in
// metres, stays within `max_integral` on each axis. With shaping, the velocity asked for changes by at
// most `max_accel_mps2`, and a leg brakes at `braking_share` of that; a `max_accel_mps2` of 0 turns
// shaping off, and a leg brakes at `brake_mps2`, where 0 is no braking curve.
#[derive(Clone, Copy)]
pub struct LateralControllerConfig {
    pub position_p: f32,
    pub velocity: Gains,
    pub max_integral: f32,
    pub max_accel_mps2: f32,
    pub brake_mps2: f32,
    pub braking_share: f32,
}

// From the numbers in the order of the fields.
impl From<[f32; 8]> for LateralControllerConfig {
    ghost from_gives = { λ fields config. config ≡ config_of fields };

    fn from(fields: [f32; 8]) -> LateralControllerConfig {
        let [
            position_p,
            p,
            i,
            d,
            max_integral,
            max_accel_mps2,
            brake_mps2,
            braking_share,
        ] = fields;
        LateralControllerConfig {
            position_p,
            velocity: Gains { p, i, d },
            max_integral,
            max_accel_mps2,
            brake_mps2,
            braking_share,
        }
    }
}

// `velocity_mps` is added to the velocity that closes the position error. A `max_speed_mps` that is a
// NaN or not positive means no cap.
#[derive(Clone, Copy)]
pub struct LateralTarget {
    pub position_m: Vec2,
    pub velocity_mps: Vec2,
    pub max_speed_mps: f32,
}

#[derive(Clone, Copy)]
pub struct LateralEstimate {
    pub position_m: Vec2,
    pub velocity_mps: Vec2,
}

// `shaped_velocity_mps` is the velocity that shaping has reached: none before the first shaped call and
// while shaping is off. `commanded_velocity_mps` is the velocity that the last finite call tracked.
#[derive(Clone, Copy, Default)]
pub struct LateralController {
    pub integrated_error: Vec2,
    pub derivative: DerivativeState,
    pub shaped_velocity_mps: Option<Vec2>,
    pub commanded_velocity_mps: Vec2,
}

// The shaped velocity after a call, the velocity to fly and the acceleration fed forward.
#[derive(Clone, Copy)]
pub struct Shaping {
    pub shaped_velocity_mps: Option<Vec2>,
    pub commanded_mps: Vec2,
    pub feedforward_mps2: Vec2,
}

// The controller after a call, and the acceleration that it asks for.
#[derive(Clone, Copy)]
pub struct LateralControl {
    pub controller: LateralController,
    pub accel_mps2: Vec2,
}

impl LateralController {
    #[tactic(auto, unfolding(crate::specs::Lateral::fresh))]
    pub fn new() -> LateralController
        ensures { result ≡ fresh }
    {
        LateralController::default()
    }

    // The horizontal acceleration towards `target` over `dt` seconds. `limit_mps2` is the acceleration
    // that the caller last had to cap, or zero: the integral does not grow towards it.
    #[tactic(auto, unfolding(crate::specs::Lateral::control))]
    pub fn control(
        self,
        config: LateralControllerConfig,
        dt: f32,
        target: LateralTarget,
        estimate: LateralEstimate,
        limit_mps2: Vec2,
    ) -> LateralControl
        ensures { result ≡ control self config dt target estimate limit_mps2 }
    {
        let desired_velocity = desired_velocity(config, target, estimate);
        let shaping = shape(
            self.shaped_velocity_mps,
            config.max_accel_mps2,
            dt,
            math::cap_magnitude(desired_velocity, max_speed(target.max_speed_mps)),
            estimate.velocity_mps,
        );
        let velocity_error = shaping.commanded_mps - estimate.velocity_mps;
        // The cap makes a velocity of no finite length zero, so the desired velocity is tested too.
        if math::all_finite(desired_velocity) && math::all_finite(velocity_error) {
            return self.tracked(config, dt, shaping, velocity_error, limit_mps2);
        }
        self.neutral(shaping)
    }

    // A call whose velocities are finite.
    #[tactic(auto, unfolding(crate::specs::Lateral::tracked))]
    fn tracked(
        self,
        config: LateralControllerConfig,
        dt: f32,
        shaping: Shaping,
        velocity_error: Vec2,
        limit_mps2: Vec2,
    ) -> LateralControl
        ensures { result ≡ tracked self config dt shaping velocity_error limit_mps2 }
    {
        let stepped = self.derivative.step(velocity_error, dt);
        let integral = math::clamp_symmetric_each(
            hold_against_limit(
                self.integrated_error,
                velocity_error * dt,
                config.velocity.i,
                limit_mps2,
            ),
            config.max_integral,
        );
        LateralControl {
            controller: LateralController {
                integrated_error: integral,
                derivative: stepped.state,
                shaped_velocity_mps: shaping.shaped_velocity_mps,
                commanded_velocity_mps: shaping.commanded_mps,
            },
            accel_mps2: shaping.feedforward_mps2
                + velocity_error * config.velocity.p
                + integral * config.velocity.i
                + stepped.derivative * config.velocity.d,
        }
    }

    // A call with a velocity that is not finite asks for no acceleration. The derivative is forgotten,
    // and the integral and the commanded velocity stay.
    #[tactic(auto, unfolding(crate::specs::Lateral::neutral))]
    fn neutral(self, shaping: Shaping) -> LateralControl
        ensures { result ≡ neutral self shaping }
    {
        LateralControl {
            controller: LateralController {
                derivative: DerivativeState::forget(),
                shaped_velocity_mps: shaping.shaped_velocity_mps,
                ..self
            },
            accel_mps2: Vec2::zeros(),
        }
    }
}

// The cap on the speed, a number as in a record: none, an infinity, for a NaN and for one that is not
// positive.
#[tactic(auto, unfolding(crate::specs::Lateral::max_speed), using(floats::proofs::Laws::Special::infinity))]
fn max_speed(max_speed_mps: f32) -> f32
    ensures { result ≡ max_speed max_speed_mps }
{
    if max_speed_mps > 0.0 {
        return max_speed_mps;
    }
    f32::INFINITY
}

// The velocity that closes the position error, with the target's own.
#[tactic(auto, unfolding(crate::specs::Lateral::desired_velocity))]
fn desired_velocity(
    config: LateralControllerConfig,
    target: LateralTarget,
    estimate: LateralEstimate,
) -> Vec2
    ensures { result ≡ desired_velocity config target estimate }
{
    let error_m = target.position_m - estimate.position_m;
    let closing = closing_velocity(error_m, config.position_p, braking_decel_mps2(config));
    closing + target.velocity_mps
}

// `demand_mps` approached at up to `max_accel_mps2` from the velocity that shaping has reached, or at
// first from the measured one. Numbers that are not finite pass through and leave what is remembered;
// with shaping off, nothing is remembered.
#[tactic(auto, unfolding(crate::specs::Lateral::shape))]
fn shape(
    shaped_velocity_mps: Option<Vec2>,
    max_accel_mps2: f32,
    dt: f32,
    demand_mps: Vec2,
    measured_mps: Vec2,
) -> Shaping
    ensures { result ≡ shape shaped_velocity_mps max_accel_mps2 dt demand_mps measured_mps }
{
    if max_accel_mps2 > 0.0 {
        if math::all_finite(demand_mps) && math::all_finite(measured_mps) {
            let from = shaped_velocity_mps.unwrap_or(measured_mps);
            let gap = demand_mps - from;
            let to = from + math::cap_magnitude(gap, max_accel_mps2 * dt);
            return Shaping {
                shaped_velocity_mps: Some(to),
                commanded_mps: to,
                feedforward_mps2: (to - from) / dt,
            };
        }
        return Shaping {
            shaped_velocity_mps,
            commanded_mps: demand_mps,
            feedforward_mps2: Vec2::zeros(),
        };
    }
    Shaping {
        shaped_velocity_mps: None,
        commanded_mps: demand_mps,
        feedforward_mps2: Vec2::zeros(),
    }
}

// The deceleration that a leg brakes at; 0 for none. A NaN counts as none. It is no `Option`: a share may
// be 0, below 0 or a NaN too, so the curve tests the number anyway.
#[tactic(auto, unfolding(crate::specs::Lateral::braking_decel))]
fn braking_decel_mps2(config: LateralControllerConfig) -> f32
    ensures { result ≡ braking_decel config }
{
    if config.max_accel_mps2 > 0.0 {
        return config.braking_share * config.max_accel_mps2;
    }
    if config.brake_mps2 > 0.0 {
        return config.brake_mps2;
    }
    0.0
}

// The velocity that closes `error_m`, on the braking curve at `decel_mps2`; in proportion to the error
// with no deceleration, and where the distance is 0 or not finite.
#[tactic(auto, unfolding(crate::specs::Lateral::closing_velocity))]
fn closing_velocity(error_m: Vec2, position_p: f32, decel_mps2: f32) -> Vec2
    ensures { result ≡ closing_velocity error_m position_p decel_mps2 }
{
    if decel_mps2 <= 0.0 {
        return error_m * position_p;
    }
    let distance_m = error_m.norm();
    if distance_m > 0.0 && floats::compare::is_finite(distance_m) {
        let speed_mps = math::shaped_closing_speed(distance_m, position_p, decel_mps2);
        return error_m * (speed_mps / distance_m);
    }
    error_m * position_p
}

// The integral with `step` added; where the step's share of the output goes towards the limit, the
// integral may turn, and does not get longer. Against a zero or a NaN it is never held.
#[tactic(auto, unfolding(crate::specs::Lateral::hold_against_limit))]
fn hold_against_limit(integral: Vec2, step: Vec2, i: f32, limit_mps2: Vec2) -> Vec2
    ensures { result ≡ hold_against_limit integral step i limit_mps2 }
{
    let next = integral + step;
    if i * step.dot(limit_mps2) > 0.0 {
        return math::cap_magnitude(next, integral.norm());
    }
    next
}
