// The heading that puts a wingtip into the wind, from wind_heading.rs: a fixed angle off where the wind
// comes from, on the side that was nearer the heading when it was picked.
ghost use Rattle.std.specs.Prelude.{◌≡◌};
ghost use Rattle.heading.specs.WindHeading.{fresh, weighed_already, picked_side, wingtip, moved, weigh, target};

use crate::HeadingConfig;
use math::vectors::Vec2;
use wind::estimate::WindEstimate;

// The side that is picked, none at first: 1 puts the heading clockwise, from north toward east, of
// where the wind blows toward, and -1 counterclockwise. The target that was latched, and the estimate
// that was weighed last, which is not weighed again unless it holds a NaN.
#[derive(Clone, Copy, Default)]
pub struct WindHeading {
    // A number and no enum of two: it is 1 or -1 in every craft, but a C program hands in any number.
    pub side: Option<f32>,
    pub target_rad: Option<f32>,
    pub weighed: Option<WindEstimate>,
}

// The memory after a call, and the heading to turn to: none where it is off, and before the wind first
// gave one.
#[derive(Clone, Copy)]
pub struct WindTurn {
    pub wind: WindHeading,
    pub target_rad: Option<f32>,
}

// The side after weighing an estimate, and the heading that the estimate gives.
#[derive(Clone, Copy)]
pub struct Wingtip {
    pub side: Option<f32>,
    pub heading_rad: Option<f32>,
}

impl WindHeading {
    #[tactic(auto, unfolding(crate::specs::WindHeading::fresh))]
    pub fn new() -> WindHeading
        ensures { result ≡ fresh }
    {
        WindHeading::default()
    }

    // The heading to turn to: the latched one, once the present estimate is weighed. It is off without a
    // positive least wind. The estimate may be none here and is there in what follows, so that it makes no
    // struct with the configuration and the heading.
    #[tactic(auto, unfolding(crate::specs::WindHeading::target, crate::specs::WindHeading::target_at))]
    pub fn target_rad(
        self,
        config: HeadingConfig,
        estimate: Option<WindEstimate>,
        heading_rad: f32,
    ) -> WindTurn
        ensures { result ≡ target self config estimate heading_rad }
    {
        let is_on = config.wind_heading_min_mps > 0.0;
        if is_on
            && let Some(present) = estimate
            && !weighed_already(self.weighed, present)
        {
            return self.weigh(config, present, heading_rad);
        }
        WindTurn {
            wind: self,
            target_rad: if is_on { self.target_rad } else { None },
        }
    }

    // Weighs an estimate, and remembers it: the target moves to the wingtip's heading where it is off
    // that by more than the deadband.
    #[tactic(auto, unfolding(crate::specs::WindHeading::weigh))]
    fn weigh(self, config: HeadingConfig, present: WindEstimate, heading_rad: f32) -> WindTurn
        ensures { result ≡ weigh self config present heading_rad }
    {
        let tip = wingtip_rad(self.side, config, present, heading_rad);
        let target_rad = moved(
            self.target_rad,
            tip.heading_rad,
            config.wind_heading_deadband_rad,
        );
        WindTurn {
            wind: WindHeading {
                side: tip.side,
                target_rad,
                weighed: Some(present),
            },
            target_rad,
        }
    }
}

// Whether the estimate weighed last equals this one: a NaN equals nothing.
#[tactic(auto, unfolding(crate::specs::WindHeading::weighed_already, crate::specs::WindHeading::same_estimate, crate::specs::Equality::same_vector, crate::specs::Equality::same_matrix))]
fn weighed_already(weighed: Option<WindEstimate>, present: WindEstimate) -> bool
    ensures { result ≡ weighed_already weighed present }
{
    weighed == Some(present)
}

// The target after a wingtip's heading: moved to it where there was none, or where it is off by more
// than the deadband.
#[tactic(auto, unfolding(crate::specs::WindHeading::moved))]
fn moved(target_rad: Option<f32>, wingtip_rad: Option<f32>, deadband_rad: f32) -> Option<f32>
    ensures { result ≡ moved target_rad wingtip_rad deadband_rad }
{
    if let (Some(from), Some(to)) = (target_rad, wingtip_rad) {
        let is_off = floats::compare::abs(math::wrap_angle(to - from)) > deadband_rad;
        return Some(if is_off { to } else { from });
    }
    wingtip_rad.or(target_rad)
}

// The heading `wind_heading_from_wind_rad` off where the wind comes from, on the side that is picked;
// none where the wind is too weak, its direction not known well enough, or it is not finite.
#[tactic(auto, unfolding(crate::specs::WindHeading::wingtip))]
fn wingtip_rad(
    side: Option<f32>,
    config: HeadingConfig,
    present: WindEstimate,
    heading_rad: f32,
) -> Wingtip
    ensures { result ≡ wingtip side config present heading_rad }
{
    let velocity = present.velocity_mps;
    let speed_mps = velocity.norm();
    let across = Vec2 {
        x: -velocity.y,
        y: velocity.x,
    };
    if speed_mps >= config.wind_heading_min_mps
        && present.sd_along_mps(across / speed_mps) <= speed_mps * config.wind_heading_max_sd_rad
    {
        let toward_rad = floats::atan::atan2f(velocity.y, velocity.x);
        let s = picked_side(side, heading_rad, toward_rad);
        let turn = s * (math::PI - config.wind_heading_from_wind_rad);
        return Wingtip {
            side: Some(s),
            heading_rad: Some(math::wrap_angle(toward_rad + turn)),
        };
    }
    Wingtip {
        side,
        heading_rad: None,
    }
}

// The side once picked, else the one nearer the heading, or 1 where that is a NaN.
#[tactic(auto, unfolding(crate::specs::WindHeading::picked_side))]
fn picked_side(side: Option<f32>, heading_rad: f32, toward_rad: f32) -> f32
    ensures { result ≡ picked_side side heading_rad toward_rad }
{
    side.unwrap_or_else(|| {
        if math::wrap_angle(heading_rad - toward_rad) < 0.0 {
            -1.0
        } else {
            1.0
        }
    })
}
