// What the controllers share: the rate divider, the derivative's history, the gains and the checks
// of a configuration's numbers.
//
// A step takes its memory by value, and gives back what is kept with what comes out, as its definition
// does.
#![tactic(auto)]

pub mod checks;
pub mod derivative;
pub mod rate_divider;

// The gains of a PID controller.
#[derive(Clone, Copy)]
pub struct Gains {
    pub p: f32,
    pub i: f32,
    pub d: f32,
}
