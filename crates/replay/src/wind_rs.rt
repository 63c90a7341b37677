// The drag, the wind estimate and the wind memory, numbered from 60. The memory is kept from call to
// call.
use crate::block::Replay;
use crate::entry::{Entry, Taken};
use crate::layer::{Call, Layer};
use heading::hover_wind::HoverWind;
use math::vectors::Vec2;
use wind::drag::WindConfig;
use wind::estimate::{Matrix2, WindEstimate};
use wind::state::VehicleState;

#[derive(Clone, Copy)]
pub enum Wind {
    Drag,
    SdAlong,
    Hover,
}

impl Layer for Wind {
    const ALL: &'static [Wind] = &[Wind::Drag, Wind::SdAlong, Wind::Hover];

    // Each is another function, of other words.
    fn answer(self, kept: &mut Replay, call: Call<'_>) -> Option<usize> {
        match self {
            Wind::Drag => call.answer(|(drag, velocity_mps)| drag_mps2(drag, velocity_mps)),
            Wind::SdAlong => call.answer(|(matrix, direction)| sd_along_mps(matrix, direction)),
            Wind::Hover => call.answer(|args| hover(&mut kept.hover_wind, args)),
        }
    }
}

fn drag_mps2(drag: Drag, velocity_mps: Vec2) -> Vec2 {
    drag.0.drag_mps2(velocity_mps)
}

fn sd_along_mps(covariance_m2ps2: Matrix2, direction: Vec2) -> f32 {
    let estimate = WindEstimate {
        covariance_m2ps2,
        ..WindEstimate::default()
    };
    estimate.sd_along_mps(direction)
}

#[derive(Clone, Copy)]
enum Feeding {
    Update,
    Prime,
    Fresh,
}

// The operations have names of their own, and so a match.
impl Taken for Feeding {
    fn taken(entry: &mut Entry<'_>) -> Option<Feeding> {
        let operation: u32 = entry.take()?;
        Some(match operation {
            0 => Feeding::Update,
            1 => Feeding::Prime,
            _ => Feeding::Fresh,
        })
    }
}

// Tuples of words end at four, so they stand in groups.
type HoverWords = ((Feeding, WindConfig), (f32, f32, VehicleState));

fn hover(
    memory: &mut HoverWind,
    ((operation, config), (airborne_height_m, dt, state)): HoverWords,
) -> HoverWind {
    // Each operation is another method.
    *memory = match operation {
        Feeding::Update => memory.update(dt, config, airborne_height_m, state),
        Feeding::Prime => memory.prime(airborne_height_m, state),
        Feeding::Fresh => HoverWind::new(),
    };
    *memory
}

// A configuration of the drag alone.
#[derive(Clone, Copy)]
pub struct Drag(pub WindConfig);

impl Taken for Drag {
    fn taken(entry: &mut Entry<'_>) -> Option<Drag> {
        let (ballistic_kgpm2, momentum_per_s) = entry.take()?;
        Some(Drag(WindConfig {
            ballistic_kgpm2,
            momentum_per_s,
            ..WindConfig::from([0.0; 9])
        }))
    }
}
