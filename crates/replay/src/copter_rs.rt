// The functions of copter.rs that keep no memory, numbered from 100.
use crate::block::Replay;
use crate::layer::{Call, Layer};
use crate::wind_rs::Drag;
use copter::tilt;
use math::vectors::Vec2;

#[derive(Clone, Copy)]
pub enum Tilt {
    ForAcceleration,
    DragFeedforward,
}

impl Layer for Tilt {
    const ALL: &'static [Tilt] = &[Tilt::ForAcceleration, Tilt::DragFeedforward];

    // Each is another function, of other words.
    fn answer(self, _kept: &mut Replay, call: Call<'_>) -> Option<usize> {
        match self {
            Tilt::ForAcceleration => call.answer(|(accel_mps2, heading_rad)| {
                tilt::tilt_for_acceleration(accel_mps2, heading_rad)
            }),
            Tilt::DragFeedforward => call.answer(drag_feedforward_mps2),
        }
    }
}

// Tuples of words end at four, so they stand in groups.
type FeedforwardWords = ((Drag, f32), (Vec2, Vec2, f32));

fn drag_feedforward_mps2(
    ((drag, hold_band_mps), (commanded_mps, wind_mps, heading_rad)): FeedforwardWords,
) -> Vec2 {
    tilt::drag_feedforward_mps2(drag.0, hold_band_mps, commanded_mps, wind_mps, heading_rad)
}
