// The history for a controller's derivative term, from derivative.rs. Lateral control alone uses it,
// with the error of two axes.
ghost use Rattle.std.specs.Prelude.{◌≡◌};
ghost use Rattle.controllers.specs.Derivative.{step, forget};

use math::vectors::Vec2;

// The error of the last step; none at first and once it was dropped.
#[derive(Clone, Copy, Default)]
pub struct DerivativeState {
    pub previous_error: Option<Vec2>,
}

// The history after a step, and the derivative.
#[derive(Clone, Copy)]
pub struct DerivativeStep {
    pub state: DerivativeState,
    pub derivative: Vec2,
}

impl DerivativeState {
    // (error - previous) / dt, or zero with no history; `error` is kept for the next step.
    #[tactic(auto, unfolding(crate::specs::Derivative::step, crate::specs::Derivative::difference_over))]
    pub fn step(self, error: Vec2, dt: f32) -> DerivativeStep
        ensures { result ≡ step self error dt }
    {
        let derivative = self
            .previous_error
            .map_or(Vec2::zeros(), |previous| (error - previous) / dt);
        DerivativeStep {
            state: DerivativeState {
                previous_error: Some(error),
            },
            derivative,
        }
    }

    // Drops the history, so that the next step has no derivative.
    pub fn forget() -> DerivativeState
        ensures { result ≡ forget }
    {
        DerivativeState::default()
    }
}
