// The float leaves, numbered from 0.
use crate::block::Replay;
use crate::layer::{Call, Layer, NoResult};
use floats::{atan, compare, minmax, narrow, rem, sin_cos, sqrt};

#[derive(Clone, Copy)]
pub enum Leaf {
    Sqrt,
    Sin,
    Cos,
    Atan,
    Atan2,
    Abs,
    Signum,
    Min,
    Max,
    Rem,
    IsFinite,
    IsNan,
    Clamp,
    Narrow,
}

impl Layer for Leaf {
    const ALL: &'static [Leaf] = &[
        Leaf::Sqrt,
        Leaf::Sin,
        Leaf::Cos,
        Leaf::Atan,
        Leaf::Atan2,
        Leaf::Abs,
        Leaf::Signum,
        Leaf::Min,
        Leaf::Max,
        Leaf::Rem,
        Leaf::IsFinite,
        Leaf::IsNan,
        Leaf::Clamp,
        Leaf::Narrow,
    ];

    // Each is another function, of other words.
    fn answer(self, _kept: &mut Replay, call: Call<'_>) -> Option<usize> {
        match self {
            Leaf::Sqrt => call.answer(sqrt::sqrtf),
            Leaf::Sin => call.answer(sin_cos::sinf),
            Leaf::Cos => call.answer(sin_cos::cosf),
            Leaf::Atan => call.answer(atan::atanf),
            Leaf::Atan2 => call.answer(|(y, x)| atan::atan2f(y, x)),
            Leaf::Abs => call.answer(compare::abs),
            Leaf::Signum => call.answer(compare::signum),
            Leaf::Min => call.answer(|(x, y)| minmax::min(x, y)),
            Leaf::Max => call.answer(|(x, y)| minmax::max(x, y)),
            Leaf::Rem => call.answer(|(x, y)| rem::rem(x, y)),
            Leaf::IsFinite => call.answer(|x| f32::from(compare::is_finite(x))),
            Leaf::IsNan => call.answer(|x| f32::from(compare::is_nan(x))),
            Leaf::Clamp => call.answer(|(x, low, high)| clamp(x, low, high)),
            Leaf::Narrow => call.answer(narrow::narrow),
        }
    }
}

// The Rust panics unless the bounds are in order.
fn clamp(x: f32, low: f32, high: f32) -> Result<f32, NoResult> {
    (low <= high)
        .then(|| minmax::clamp(x, low, high))
        .ok_or(NoResult)
}
