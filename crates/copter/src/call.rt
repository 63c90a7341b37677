// What a call brings beside its command.
use crate::config::CopterGuidanceConfig;
use wind::state::VehicleState;

// The configuration that a call flies by, its time step and the craft's state.
#[derive(Clone, Copy)]
pub struct GuidanceCall {
    pub config: CopterGuidanceConfig,
    pub dt: f32,
    pub state: VehicleState,
}
