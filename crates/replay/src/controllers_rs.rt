// The divider, the derivative's history, altitude control and lateral control, numbered from 40. Each
// keeps its memory from call to call.
use crate::block::Replay;
use crate::entry::{Entry, Taken};
use crate::layer::{Call, Layer, NoResult};
use altitude::{AltitudeController, AltitudeControllerConfig, AltitudeEstimate, AltitudeTarget};
use controllers::checks;
use controllers::derivative::{DerivativeState, DerivativeStep};
use controllers::rate_divider::{Paced, RateDivider};
use lateral::{LateralController, LateralControllerConfig, LateralEstimate, LateralTarget};
use math::vectors::Vec2;

#[derive(Clone, Copy)]
pub enum Controller {
    RateDivider,
    Derivative,
    Altitude,
    Lateral,
}

impl Layer for Controller {
    const ALL: &'static [Controller] = &[
        Controller::RateDivider,
        Controller::Derivative,
        Controller::Altitude,
        Controller::Lateral,
    ];

    // Each is another function, of other words.
    fn answer(self, kept: &mut Replay, call: Call<'_>) -> Option<usize> {
        match self {
            Controller::RateDivider => call.answer(|args| rate_divider(&mut kept.divider, args)),
            Controller::Derivative => call.answer(|args| derivative(&mut kept.history, args)),
            Controller::Altitude => call.answer(|args| altitude_control(&mut kept.altitude, args)),
            Controller::Lateral => call.answer(|args| lateral_control(&mut kept.lateral, args)),
        }
    }
}

#[derive(Clone, Copy)]
enum Pacing {
    Due,
    Ran,
    Reset,
}

// The operations of a function have names of their own, and so a match, here and below.
impl Taken for Pacing {
    fn taken(entry: &mut Entry<'_>) -> Option<Pacing> {
        let operation: u32 = entry.take()?;
        Some(match operation {
            0 => Pacing::Due,
            1 => Pacing::Ran,
            _ => Pacing::Reset,
        })
    }
}

fn rate_divider(
    memory: &mut RateDivider,
    (operation, dt, period): (Pacing, f32, f32),
) -> (Option<f32>, Option<f32>) {
    // Each operation is another method.
    let paced = match operation {
        Pacing::Due => memory.due(dt, period),
        Pacing::Ran => idle(RateDivider::ran()),
        Pacing::Reset => idle(RateDivider::reset()),
    };
    *memory = paced.divider;
    (paced.due, paced.divider.elapsed_s)
}

fn idle(divider: RateDivider) -> Paced {
    Paced { divider, due: None }
}

#[derive(Clone, Copy)]
enum Differencing {
    Step,
    Forget,
}

// 1 is forget and 2 is fresh, which are the same.
impl Taken for Differencing {
    fn taken(entry: &mut Entry<'_>) -> Option<Differencing> {
        let operation: u32 = entry.take()?;
        Some(match operation {
            0 => Differencing::Step,
            _ => Differencing::Forget,
        })
    }
}

fn derivative(
    memory: &mut DerivativeState,
    (operation, error, dt): (Differencing, Vec2, f32),
) -> (Vec2, Option<Vec2>) {
    // Each operation is another method.
    let stepped = match operation {
        Differencing::Step => memory.step(error, dt),
        Differencing::Forget => DerivativeStep {
            state: DerivativeState::forget(),
            // The oracle writes zeros.
            derivative: Vec2::zeros(),
        },
    };
    *memory = stepped.state;
    (stepped.derivative, stepped.state.previous_error)
}

// Calls a controller, afresh where asked, and keeps its memory. The Rust panics unless the time step is
// positive and finite.
fn controlled<C: Copy + Default, R, F: FnOnce(C) -> (C, R) + Drop>(
    memory: &mut C,
    afresh: bool,
    dt: f32,
    control: F,
) -> Result<R, NoResult>
    requires { F.IsAlwaysCallable control }
{
    if afresh {
        *memory = C::default();
    }
    if !checks::check_positive(dt) {
        return Err(NoResult);
    }
    let (after, answer) = control(*memory);
    *memory = after;
    Ok(answer)
}

// Tuples of words end at four, so they stand in groups, here and below.
type AltitudeWords = (
    (bool, AltitudeControllerConfig, f32),
    (AltitudeTarget, AltitudeEstimate),
);

// The integral comes out in every call.
fn altitude_control(
    memory: &mut AltitudeController,
    ((afresh, config, dt), (target, estimate)): AltitudeWords,
) -> (Result<f32, NoResult>, f32) {
    let thrust = controlled(memory, afresh, dt, |controller| {
        let call = controller.control(config, dt, target, estimate);
        (call.controller, call.thrust)
    });
    (thrust, memory.integrated_error)
}

type LateralWords = (
    (bool, LateralControllerConfig, f32),
    (LateralTarget, LateralEstimate, Vec2),
);

// The memory comes out in every call.
fn lateral_control(
    memory: &mut LateralController,
    ((afresh, config, dt), (target, estimate, limit_mps2)): LateralWords,
) -> (Result<Vec2, (NoResult, NoResult)>, LateralController) {
    let accel_mps2 = controlled(memory, afresh, dt, |controller| {
        let call = controller.control(config, dt, target, estimate, limit_mps2);
        (call.controller, call.accel_mps2)
    });
    (accel_mps2.map_err(|none| (none, none)), *memory)
}
