// Wrap, altitude control, lateral control, a wind update and a step of the leg's heading under C names,
// for the driver of bench/, which is not in Rattle. The specs say what stands where in an array.
#![tactic(auto)]

mod hover_wind;
mod leg_heading;
mod memory;

ghost use Rattle.std.specs.Prelude.{◌≡◌};
ghost use Rattle.math.specs.Math.{wrap_angle};
ghost use Rattle.control_c.specs.Calls as calls;

use altitude::{
    AltitudeControl, AltitudeController, AltitudeControllerConfig, AltitudeEstimate, AltitudeTarget,
};
use controllers::derivative::DerivativeState;
use lateral::{
    LateralControl, LateralController, LateralControllerConfig, LateralEstimate, LateralTarget,
};
use math::vectors::{Quaternion, Vec2};
use memory::{Held, Numbers, given};

#[unsafe(no_mangle)]
pub extern "C" fn tarragonhoe_wrap_angle(angle: f32) -> f32
    ensures { result ≡ wrap_angle angle }
{
    math::wrap_angle(angle)
}

// The thrust. The integral is read and replaced.
#[unsafe(no_mangle)]
pub extern "C" fn tarragonhoe_altitude(integral: &mut f32, w: &[f32; 15]) -> f32
    ensures value { result ≡ (calls.altitude_call integral.old w.now).thrust }
    ensures integral_after { integral.new ≡ (calls.altitude_call integral.old w.now).controller.integrated_error }
{
    let call = altitude_call(*integral, w);
    *integral = call.controller.integrated_error;
    call.thrust
}

fn altitude_call(integral: f32, w: &[f32; 15]) -> AltitudeControl
    ensures { result ≡ calls.altitude_call integral w.now }
{
    let controller = AltitudeController {
        integrated_error: integral,
    };
    let config = AltitudeControllerConfig::from(<[f32; 6]>::read(w, 0));
    let target = AltitudeTarget {
        altitude_m: w[7],
        velocity_mps: w[8],
    };
    let estimate = AltitudeEstimate {
        altitude_m: w[9],
        velocity_mps: w[10],
        attitude: Quaternion::read(w, 11),
    };
    controller.control(config, w[6], target, estimate)
}

// The memory is read and replaced, and the acceleration put behind it.
#[unsafe(no_mangle)]
pub extern "C" fn tarragonhoe_lateral(m: &mut [f32; 12], w: &[f32; 20])
    ensures { m.new ≡ calls.lateral_numbers (calls.lateral_call (calls.memory m.old) w.now) }
{
    *m = numbers(lateral_call(controller(m), w));
}

fn controller(m: &[f32; 12]) -> LateralController
    ensures { result ≡ calls.memory m.now }
{
    LateralController {
        integrated_error: Vec2::read(m, 0),
        derivative: DerivativeState {
            previous_error: given(m, 2),
        },
        shaped_velocity_mps: given(m, 5),
        commanded_velocity_mps: Vec2::read(m, 8),
    }
}

fn lateral_call(controller: LateralController, w: &[f32; 20]) -> LateralControl
    ensures { result ≡ calls.lateral_call controller w.now }
{
    let config = LateralControllerConfig::from(<[f32; 8]>::read(w, 0));
    let target = LateralTarget {
        position_m: Vec2::read(w, 9),
        velocity_mps: Vec2::read(w, 11),
        max_speed_mps: w[13],
    };
    let estimate = LateralEstimate {
        position_m: Vec2::read(w, 14),
        velocity_mps: Vec2::read(w, 16),
    };
    controller.control(config, w[8], target, estimate, Vec2::read(w, 18))
}

fn numbers(call: LateralControl) -> [f32; 12]
    ensures { result ≡ calls.lateral_numbers call }
{
    let after = call.controller;
    let history = Held::of(after.derivative.previous_error, Vec2::zeros());
    let shaped = Held::of(after.shaped_velocity_mps, Vec2::zeros());
    [
        after.integrated_error.x,
        after.integrated_error.y,
        history.flag,
        history.value.x,
        history.value.y,
        shaped.flag,
        shaped.value.x,
        shaped.value.y,
        after.commanded_velocity_mps.x,
        after.commanded_velocity_mps.y,
        call.accel_mps2.x,
        call.accel_mps2.y,
    ]
}
