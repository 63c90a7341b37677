// The wingtip heading and the heading along a leg, numbered from 80. Each keeps its memory from call to
// call.
use crate::block::Replay;
use crate::entry::{Entry, Taken};
use crate::layer::{Call, Layer};
use heading::HeadingConfig;
use heading::leg_heading::{HeadingCall, LegHeading, Turn};
use heading::wind_heading::WindHeading;
use math::vectors::Vec2;
use wind::estimate::WindEstimate;
use wind::state::VehicleState;

#[derive(Clone, Copy)]
pub enum Heading {
    Wind,
    Leg,
}

impl Layer for Heading {
    const ALL: &'static [Heading] = &[Heading::Wind, Heading::Leg];

    // Each is another function, of other words.
    fn answer(self, kept: &mut Replay, call: Call<'_>) -> Option<usize> {
        match self {
            Heading::Wind => call.answer(|args| wind_heading(&mut kept.wind_heading, args)),
            Heading::Leg => call.answer(|args| leg_heading(&mut kept.leg_heading, args)),
        }
    }
}

// A configuration of the wind heading alone.
#[derive(Clone, Copy)]
struct WindPart(HeadingConfig);

impl Taken for WindPart {
    fn taken(entry: &mut Entry<'_>) -> Option<WindPart> {
        Some(WindPart(HeadingConfig {
            wind_heading_min_mps: entry.take()?,
            wind_heading_from_wind_rad: entry.take()?,
            wind_heading_max_sd_rad: entry.take()?,
            wind_heading_deadband_rad: entry.take()?,
            ..HeadingConfig::from([0.0; 10])
        }))
    }
}

fn wind_heading(
    memory: &mut WindHeading,
    (afresh, config, estimate, heading_rad): (bool, WindPart, Option<WindEstimate>, f32),
) -> (Option<f32>, WindHeading) {
    if afresh {
        *memory = WindHeading::new();
    }
    let turn = memory.target_rad(config.0, estimate, heading_rad);
    *memory = turn.wind;
    (turn.target_rad, turn.wind)
}

#[derive(Clone, Copy)]
enum Turning {
    Waypoint,
    Land,
    Clear,
    Reset,
}

// The operations have names of their own, and so a match.
impl Taken for Turning {
    fn taken(entry: &mut Entry<'_>) -> Option<Turning> {
        let operation: u32 = entry.take()?;
        Some(match operation {
            0 => Turning::Waypoint,
            1 => Turning::Land,
            2 => Turning::Clear,
            _ => Turning::Reset,
        })
    }
}

// Tuples of words end at four, so they stand in groups.
type LegWords = (
    (Turning, HeadingConfig, f32),
    (f32, Vec2, Option<f32>),
    (Option<WindEstimate>, VehicleState),
);

fn leg_heading(
    memory: &mut LegHeading,
    ((operation, config, dt), (target_rad, position_m, commanded), (estimate, state)): LegWords,
) -> (f32, LegHeading) {
    let call = HeadingCall {
        dt,
        config,
        target_rad,
        estimate,
        state,
    };
    // Each operation is another method.
    let turn = match operation {
        Turning::Waypoint => memory.target_rad(call, position_m, commanded),
        Turning::Land => memory.land_target_rad(call),
        Turning::Clear => no_turn(memory.clear()),
        Turning::Reset => no_turn(LegHeading::new()),
    };
    *memory = turn.memory;
    (turn.heading_rad, turn.memory)
}

// The oracle writes a zero.
fn no_turn(memory: LegHeading) -> Turn {
    Turn {
        memory,
        heading_rad: 0.0,
    }
}
