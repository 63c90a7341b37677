// One step of the heading along a leg.
ghost use Rattle.std.specs.Prelude.{◌≡◌};
ghost use Rattle.control_c.specs.Calls.{state};
ghost use Rattle.control_c.specs.LegHeading as leg;

use crate::memory::{Held, Numbers, given};
use heading::HeadingConfig;
use heading::leg_heading::{HeadingCall, Leg, LegHeading, Turn};
use heading::wind_heading::WindHeading;
use math::vectors::Vec2;
use wind::estimate::WindEstimate;
use wind::state::VehicleState;

// The heading to turn to. The memory is read and replaced.
#[unsafe(no_mangle)]
pub extern "C" fn tarragonhoe_leg_heading(m: &mut [f32; 18], w: &[f32; 23], s: &[f32; 15]) -> f32
    ensures value { result ≡ (leg.call (leg.memory m.old) w.now (state s.now)).heading_rad }
    ensures m_after { m.new ≡ leg.numbers (leg.call (leg.memory m.old) w.now (state s.now)).memory }
{
    let turn = turned(leg_memory(m), w, s);
    *m = leg_numbers(turn.memory);
    turn.heading_rad
}

fn turned(before: LegHeading, w: &[f32; 23], s: &[f32; 15]) -> Turn
    ensures { result ≡ leg.call before w.now (state s.now) }
{
    let call = HeadingCall {
        dt: w[10],
        config: HeadingConfig::from(<[f32; 10]>::read(w, 0)),
        target_rad: w[11],
        estimate: given(w, 16),
        state: VehicleState::from(*s),
    };
    before.target_rad(call, Vec2::read(w, 12), given(w, 14))
}

fn leg_memory(m: &[f32; 18]) -> LegHeading
    ensures { result ≡ leg.memory m.now }
{
    LegHeading {
        leg: given(m, 0),
        stuck_s: m[5],
        yielding: m[6] != 0.0,
        wind: wind_memory(m),
    }
}

fn wind_memory(m: &[f32; 18]) -> WindHeading
    ensures { result ≡ leg.wind_memory m.now }
{
    WindHeading {
        side: given(m, 7),
        target_rad: given(m, 9),
        weighed: given(m, 11),
    }
}

fn leg_numbers(after: LegHeading) -> [f32; 18]
    ensures { result ≡ leg.numbers after }
{
    let held = Held::of(after.leg, Leg::default());
    let leg = held.value;
    let bearing = Held::of(leg.bearing_rad, 0.0);
    let side = Held::of(after.wind.side, 0.0);
    let target = Held::of(after.wind.target_rad, 0.0);
    let last = Held::of(after.wind.weighed, WindEstimate::default());
    let estimate = last.value;
    [
        held.flag,
        leg.to_m.x,
        leg.to_m.y,
        bearing.flag,
        bearing.value,
        after.stuck_s,
        f32::from(after.yielding),
        side.flag,
        side.value,
        target.flag,
        target.value,
        last.flag,
        estimate.velocity_mps.x,
        estimate.velocity_mps.y,
        estimate.covariance_m2ps2.m00,
        estimate.covariance_m2ps2.m01,
        estimate.covariance_m2ps2.m10,
        estimate.covariance_m2ps2.m11,
    ]
}
