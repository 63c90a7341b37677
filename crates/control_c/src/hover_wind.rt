// One wind update.
ghost use Rattle.std.specs.Prelude.{◌≡◌};
ghost use Rattle.control_c.specs.Calls.{state};
ghost use Rattle.control_c.specs.HoverWind as wind;

use crate::memory::{Held, Numbers, given};
use heading::hover_wind::HoverWind;
use math::vectors::Vec2;
use wind::drag::WindConfig;
use wind::estimate::WindEstimate;
use wind::sample::Sample;
use wind::state::VehicleState;
use wind::window::{WindEstimator, Window};

// The memory and the window's count of samples are read and replaced.
#[unsafe(no_mangle)]
pub extern "C" fn tarragonhoe_wind(m: &mut [f32; 19], ticks: &mut u32, w: &[f32; 11], s: &[f32; 15])
    ensures m_after { m.new ≡ wind.numbers (wind.call (wind.memory m.old ticks.old) w.now (state s.now)) }
    ensures ticks_after { ticks.new ≡ (wind.call (wind.memory m.old ticks.old) w.now (state s.now)).estimator.window.ticks }
{
    let after = updated(wind_memory(m, *ticks), w, s);
    *ticks = after.estimator.window.ticks;
    *m = wind_numbers(after);
}

fn updated(before: HoverWind, w: &[f32; 11], s: &[f32; 15]) -> HoverWind
    ensures { result ≡ wind.call before w.now (state s.now) }
{
    let config = WindConfig::from(<[f32; 9]>::read(w, 0));
    before.update(w[10], config, w[9], VehicleState::from(*s))
}

fn wind_memory(m: &[f32; 19], ticks: u32) -> HoverWind
    ensures { result ≡ wind.memory m.now ticks }
{
    HoverWind {
        estimator: WindEstimator {
            filter: given(m, 0),
            window: window(m, ticks),
        },
        ground_altitude_m: given(m, 17),
    }
}

fn window(m: &[f32; 19], ticks: u32) -> Window
    ensures { result ≡ wind.window m.now ticks }
{
    Window {
        elapsed_s: m[7],
        ticks,
        sums: Sample {
            specific_force_mps2: Vec2::read(m, 8),
            ground_along_mps: Vec2::read(m, 10),
            axis_x: Vec2::read(m, 12),
            axis_y: Vec2::read(m, 14),
            axial_mps: m[16],
        },
    }
}

fn wind_numbers(after: HoverWind) -> [f32; 19]
    ensures { result ≡ wind.numbers after }
{
    let window = after.estimator.window;
    let sums = window.sums;
    let held = Held::of(after.estimator.filter, WindEstimate::default());
    let ground = Held::of(after.ground_altitude_m, 0.0);
    let wind = held.value;
    [
        held.flag,
        wind.velocity_mps.x,
        wind.velocity_mps.y,
        wind.covariance_m2ps2.m00,
        wind.covariance_m2ps2.m01,
        wind.covariance_m2ps2.m10,
        wind.covariance_m2ps2.m11,
        window.elapsed_s,
        sums.specific_force_mps2.x,
        sums.specific_force_mps2.y,
        sums.ground_along_mps.x,
        sums.ground_along_mps.y,
        sums.axis_x.x,
        sums.axis_x.y,
        sums.axis_y.x,
        sums.axis_y.y,
        sums.axial_mps,
        ground.flag,
        ground.value,
    ]
}
