// min, max and clamp as Rust's `f32` has them. std's leave open which of two equal zeros comes out, and its
// `clamp` asks that the bounds are in order. `min` and `max` differ by one comparison in a line: one
// function that is passed the comparison would make both longer.
ghost use Rattle.std.specs.Prelude.{◌≡◌};
ghost use Rattle.floats.specs.MinMax.{min, max, clamp};

// The smaller of two, and the other one where one is a NaN. Of two equal values it is x.
#[tactic(auto, unfolding(crate::specs::MinMax::min))]
pub fn min(x: f32, y: f32) -> f32
    ensures { result ≡ min x y }
{
    if x.is_nan() || y < x { y } else { x }
}

// The larger of two, and the other one where one is a NaN. Of two equal values it is x.
#[tactic(auto, unfolding(crate::specs::MinMax::max))]
pub fn max(x: f32, y: f32) -> f32
    ensures { result ≡ max x y }
{
    if x.is_nan() || x < y { y } else { x }
}

// x brought to `low` where it is below it, and then to `high` where it is above that. A NaN stays
// one, and a zero that is in bounds keeps its sign.
#[tactic(auto, unfolding(crate::specs::MinMax::clamp))]
pub fn clamp(x: f32, low: f32, high: f32) -> f32
    ensures { result ≡ clamp x low high }
{
    let y = if x < low { low } else { x };
    if high < y { high } else { y }
}
