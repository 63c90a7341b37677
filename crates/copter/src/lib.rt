// Copter guidance, from guidance/copter.rs: a command and a state to a setpoint. The craft goes in by
// value and comes back by value.
#![tactic(auto)]

pub mod call;
pub mod commands;
pub mod config;
pub mod descent;
pub mod guide;
pub mod memory;
pub mod thrust;
pub mod tilt;
