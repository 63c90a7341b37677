// The helpers of math.rs, numbered from 20.
use crate::block::Replay;
use crate::layer::{Call, Layer};

#[derive(Clone, Copy)]
pub enum Helper {
    WrapAngle,
    CapMagnitude,
    SaturateUnit,
    SaturateThrottle,
    SaturateSymmetric,
    ClampSymmetric,
    LimitOrZero,
    NeuToNed,
    TiltBoost,
    GuardSink,
    ShapedClosingSpeed,
}

impl Layer for Helper {
    const ALL: &'static [Helper] = &[
        Helper::WrapAngle,
        Helper::CapMagnitude,
        Helper::SaturateUnit,
        Helper::SaturateThrottle,
        Helper::SaturateSymmetric,
        Helper::ClampSymmetric,
        Helper::LimitOrZero,
        Helper::NeuToNed,
        Helper::TiltBoost,
        Helper::GuardSink,
        Helper::ShapedClosingSpeed,
    ];

    // Each is another function, of other words.
    fn answer(self, _kept: &mut Replay, call: Call<'_>) -> Option<usize> {
        match self {
            Helper::WrapAngle => call.answer(math::wrap_angle),
            Helper::CapMagnitude => call.answer(|(v, cap)| math::cap_magnitude(v, cap)),
            Helper::SaturateUnit => call.answer(math::saturate_unit),
            Helper::SaturateThrottle => call.answer(math::saturate_throttle),
            Helper::SaturateSymmetric => call.answer(|(x, cap)| math::saturate_symmetric(x, cap)),
            Helper::ClampSymmetric => call.answer(|(x, cap)| math::clamp_symmetric(x, cap)),
            Helper::LimitOrZero => call.answer(math::limit_or_zero),
            Helper::NeuToNed => call.answer(math::neu_to_ned),
            Helper::TiltBoost => call.answer(math::tilt_boost),
            Helper::GuardSink => call.answer(|(thrust, climb_mps, limit_mps, gain)| {
                math::guard_sink(thrust, climb_mps, limit_mps, gain)
            }),
            Helper::ShapedClosingSpeed => call.answer(|(distance_m, p, accel_mps2)| {
                math::shaped_closing_speed(distance_m, p, accel_mps2)
            }),
        }
    }
}
