// The wind estimate, from estimation/wind.rs: drag inverted to air velocity, one axis at a time, and
// filtered on the wind, north and east.
#![tactic(auto)]

pub mod drag;
pub mod estimate;
pub mod sample;
pub mod state;
pub mod window;
