// The commands of the five calls, and what a call answers.
use math::vectors::Vec2;

// Sticks: the throttle in [0, 1], the others in [-1, 1].
#[derive(Clone, Copy)]
pub struct AttitudeCommand {
    pub throttle: f32,
    pub roll: f32,
    pub pitch: f32,
    pub yaw: f32,
}

// A position, with the target's own velocity and a heading where they are given.
#[derive(Clone, Copy)]
pub struct WaypointCommand {
    pub position_m: Vec2,
    pub velocity_mps: Option<Vec2>,
    pub altitude_m: f32,
    // A number as in a record, where one that is not positive is no cap.
    pub cruise_speed_mps: f32,
    pub heading_rad: Option<f32>,
}

#[derive(Clone, Copy)]
pub struct AbsoluteAttitudeCommand {
    pub roll_rad: f32,
    pub pitch_rad: f32,
    pub heading_rad: f32,
    pub thrust: f32,
}

#[derive(Clone, Copy)]
pub struct LandCommand {
    pub position_m: Vec2,
}

#[derive(Clone, Copy)]
pub struct AbsoluteRateCommand {
    pub roll_radps: f32,
    pub pitch_radps: f32,
    pub yaw_radps: f32,
    pub thrust: f32,
}

// What a call is told to fly.
#[derive(Clone, Copy)]
pub enum Command {
    Attitude(AttitudeCommand),
    Waypoint(WaypointCommand),
    AbsoluteAttitude(AbsoluteAttitudeCommand),
    Land(LandCommand),
    AbsoluteRate(AbsoluteRateCommand),
}

// A setpoint is flown and a command is asked for, so they are two types where their fields are alike too.
#[derive(Clone, Copy)]
pub struct AttitudeSetpoint {
    pub roll_rad: f32,
    pub pitch_rad: f32,
    pub heading_rad: f32,
    pub thrust: f32,
}

#[derive(Clone, Copy)]
pub struct BodyRateSetpoint {
    pub roll_radps: f32,
    pub pitch_radps: f32,
    pub yaw_radps: f32,
    pub thrust: f32,
}

#[derive(Clone, Copy)]
pub enum Setpoint {
    Attitude(AttitudeSetpoint),
    BodyRate(BodyRateSetpoint),
}

// What a call clipped, and whether the throttle is idle.
#[derive(Clone, Copy, Default)]
pub struct Flags {
    pub tilt: bool,
    pub thrust: bool,
    pub idle: bool,
}
