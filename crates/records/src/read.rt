// Decodes a record's body: what it says, or why it is refused, from the bytes alone. A reader gets the part
// of the body that is its own, and asks for its layout's size: an array of so many bytes would be cut from
// the body by a test that never fails.
ghost use Rattle.std.specs.Prelude.{◌≡◌, ◌+◌, ◌*◌, ◌≤◌, length, leb, eqb, cond, Ok, Err};
ghost use Rattle.copter.specs.Config.{field_count};
ghost use Rattle.records.specs.Layout.{word_at, float_at, numbers, size, floats_from};
ghost use Rattle.records.specs.declared.kinds.Call.TheVariants as calls;
ghost use Rattle.records.specs.declared.kinds.InFlight.TheVariants as flights;
ghost use Rattle.records.specs.Kinds.{command_layout, in_flight_layout, state_layout};
ghost use Rattle.records.specs.declared.answer.Refusal.TheVariants as refusals;
ghost use Rattle.records.specs.Read.{state, attitude_command, marks_ok, waypoint_command};
ghost use Rattle.records.specs.Read.{absolute_attitude_command, land_command, absolute_rate_command, command};
ghost use Rattle.records.specs.Read.{time_step_ok, heading_ok, configuration, prime_input, read};

use crate::answer::Refusal;
use crate::body::Body;
use crate::kinds::{COMMAND_START, Call, InFlight, NUMBER};
use copter::commands::{
    AbsoluteAttitudeCommand, AbsoluteRateCommand, AttitudeCommand, Command, LandCommand,
    WaypointCommand,
};
use copter::config::{CopterGuidanceConfig, FIELDS};
use math::vectors::Vec2;
use wind::state::VehicleState;

// What a configured craft is told.
#[derive(Clone, Copy)]
pub enum Input {
    Prime(VehicleState),
    // A time step in seconds, a state and a command.
    Call(f32, VehicleState, Command),
    Wind,
}

// The largest heading that a record may have, in radians, and the shortest and the longest time step, in
// seconds.
const MAX_HEADING_RAD: f32 = 1024.0;

const SHORTEST_STEP_S: f32 = 0.00024414062;

const LONGEST_STEP_S: f32 = 1.0;

// The word at an index. It has a function of its own, in which the compiler reads the four bytes at
// once.
fn read_word(part: &[u8], at: usize) -> u32
    requires { at + 4 ≤ length part.now }
    ensures { result ≡ word_at part.now at }
{
    u32::from_le_bytes([part[at], part[at + 1], part[at + 2], part[at + 3]])
}

// The float at an index.
#[tactic(auto, unfolding(crate::specs::Layout::float_at))]
fn read_f32(part: &[u8], at: usize) -> f32
    requires { at + 4 ≤ length part.now }
    ensures { result ≡ float_at part.now at }
{
    floats::bits::from_bits(read_word(part, at))
}

// The floats that a part starts with.
fn floats<const N: usize>(part: &[u8]) -> [f32; N]
    requires { 4 * N ≤ length part.now }
    ensures { result ≡ floats_from 0 N part.now }
{
    std::array::from_fn(|i| read_f32(part, i * NUMBER))
}

#[tactic(auto, unfolding(crate::specs::Read::state, crate::specs::Layout::floats_from))]
fn read_state(part: &[u8]) -> VehicleState
    requires { size state_layout ≤ length part.now }
    ensures { result ≡ state part.now }
{
    VehicleState::from(floats::<15>(part))
}

// The commands of four numbers fill structs with fields of other names.
#[tactic(auto, unfolding(crate::specs::Read::attitude_command, crate::specs::Layout::floats_from))]
fn read_attitude(part: &[u8]) -> AttitudeCommand
    requires { size (command_layout calls.Attitude) ≤ length part.now }
    ensures { result ≡ attitude_command part.now }
{
    let [throttle, roll, pitch, yaw] = floats::<4>(part);
    AttitudeCommand {
        throttle,
        roll,
        pitch,
        yaw,
    }
}

// Whether what a byte marks is present: 1 it is, 0 it is absent, and all else is refused.
fn mark(byte: u8) -> Result<bool, Refusal>
    ensures { result ≡ cond (leb byte 1) (Ok (eqb byte 1)) (Err refusals.Mark) }
{
    match byte {
        0 => Ok(false),
        1 => Ok(true),
        _ => Err(Refusal::Mark),
    }
}

// A waypoint, which a mark that is neither 0 nor 1 refuses. The floats after a mark of 0 are not read.
// Its marks part the floats, so each is read at its place.
#[tactic(auto, unfolding(crate::specs::Read::marks_ok, crate::specs::Read::waypoint_command))]
fn read_waypoint(part: &[u8]) -> Result<WaypointCommand, Refusal>
    requires { size (command_layout calls.Waypoint) ≤ length part.now }
    ensures { result ≡ cond (marks_ok part.now) (Ok (waypoint_command part.now)) (Err refusals.Mark) }
{
    let has_velocity = mark(part[8])?;
    let has_heading = mark(part[25])?;
    Ok(WaypointCommand {
        position_m: Vec2 {
            x: read_f32(part, 0),
            y: read_f32(part, 4),
        },
        velocity_mps: has_velocity.then(|| Vec2 {
            x: read_f32(part, 9),
            y: read_f32(part, 13),
        }),
        altitude_m: read_f32(part, 17),
        cruise_speed_mps: read_f32(part, 21),
        heading_rad: has_heading.then(|| read_f32(part, 26)),
    })
}

#[tactic(auto, unfolding(crate::specs::Read::absolute_attitude_command, crate::specs::Layout::floats_from))]
fn read_absolute_attitude(part: &[u8]) -> AbsoluteAttitudeCommand
    requires { size (command_layout calls.AbsoluteAttitude) ≤ length part.now }
    ensures { result ≡ absolute_attitude_command part.now }
{
    let [roll_rad, pitch_rad, heading_rad, thrust] = floats::<4>(part);
    AbsoluteAttitudeCommand {
        roll_rad,
        pitch_rad,
        heading_rad,
        thrust,
    }
}

#[tactic(auto, unfolding(crate::specs::Read::land_command, crate::specs::Layout::floats_from))]
fn read_land(part: &[u8]) -> LandCommand
    requires { size (command_layout calls.Land) ≤ length part.now }
    ensures { result ≡ land_command part.now }
{
    let [x, y] = floats::<2>(part);
    LandCommand {
        position_m: Vec2 { x, y },
    }
}

#[tactic(auto, unfolding(crate::specs::Read::absolute_rate_command, crate::specs::Layout::floats_from))]
fn read_absolute_rate(part: &[u8]) -> AbsoluteRateCommand
    requires { size (command_layout calls.AbsoluteRate) ≤ length part.now }
    ensures { result ≡ absolute_rate_command part.now }
{
    let [roll_radps, pitch_radps, yaw_radps, thrust] = floats::<4>(part);
    AbsoluteRateCommand {
        roll_radps,
        pitch_radps,
        yaw_radps,
        thrust,
    }
}

// A call's command, which a mark that is neither 0 nor 1 refuses. Each call brings a struct of its own, so
// a match picks its reader.
#[tactic(auto, unfolding(crate::specs::Read::command))]
fn read_command(call: Call, part: &[u8]) -> Result<Command, Refusal>
    requires { size (command_layout call) ≤ length part.now }
    ensures { result ≡ command call part.now }
{
    Ok(match call {
        Call::Attitude => Command::Attitude(read_attitude(part)),
        Call::Waypoint => Command::Waypoint(read_waypoint(part)?),
        Call::AbsoluteAttitude => Command::AbsoluteAttitude(read_absolute_attitude(part)),
        Call::Land => Command::Land(read_land(part)),
        Call::AbsoluteRate => Command::AbsoluteRate(read_absolute_rate(part)),
    })
}

// From 1/4,096 to 1; a NaN is not.
#[tactic(auto, unfolding(crate::specs::Read::time_step_ok))]
fn time_step_ok(dt: f32) -> bool
    ensures { result ≡ time_step_ok dt }
{
    SHORTEST_STEP_S <= dt && dt <= LONGEST_STEP_S
}

// Not finite, or at most 1,024 in size.
#[tactic(auto, unfolding(crate::specs::Read::heading_ok))]
fn heading_ok(heading_rad: f32) -> bool
    ensures { result ≡ heading_ok heading_rad }
{
    !floats::compare::is_finite(heading_rad) || floats::compare::abs(heading_rad) <= MAX_HEADING_RAD
}

// A configuration, which the lowest of its fields that breaks its rule refuses.
#[tactic(auto, using(crate::proofs::Configuration::one_broken, crate::proofs::Configuration::none_broken))]
pub fn read_configuration(body: &[u8]) -> Result<CopterGuidanceConfig, Refusal>
    requires { size (numbers field_count) ≤ length body.now }
    ensures { result ≡ configuration body.now }
{
    let fields = floats::<FIELDS>(body);
    match copter::config::lowest_broken(&fields) {
        Some(field) => Err(Refusal::Field(field)),
        None => Ok(CopterGuidanceConfig::from(&fields)),
    }
}

#[tactic(auto, unfolding(crate::specs::Read::prime_input))]
fn read_prime(body: &[u8]) -> Result<Input, Refusal>
    requires { size state_layout ≤ length body.now }
    ensures { result ≡ prime_input (state body.now) }
{
    let state = read_state(body);
    if !heading_ok(state.heading_rad) {
        return Err(Refusal::Heading);
    }
    Ok(Input::Prime(state))
}

// The checks of a call are in document 01's order: its marks, its time step, its heading.
#[tactic(auto, unfolding(crate::specs::Read::call_input), using(crate::proofs::Parts::parted))]
fn read_call(call: Call, body: &[u8]) -> Result<Input, Refusal>
    requires { size (in_flight_layout (flights.Call call)) ≤ length body.now }
    ensures { result ≡ read (flights.Call call) body.now }
{
    let command = read_command(call, &body[COMMAND_START..])?;
    let dt = read_f32(body, 0);
    let state = read_state(&body[NUMBER..]);
    if !time_step_ok(dt) {
        return Err(Refusal::TimeStep);
    }
    if !heading_ok(state.heading_rad) {
        return Err(Refusal::Heading);
    }
    Ok(Input::Call(dt, state, command))
}

// What the body of a kind says. Each kind has a layout and a reader of its own.
#[tactic(auto, unfolding(crate::specs::Read::read))]
pub fn decode(body: &Body<'_>) -> Result<Input, Refusal>
    ensures { result ≡ read body.now.0 body.now.1 }
{
    match body.kind() {
        InFlight::Prime => read_prime(body.bytes()),
        InFlight::Call(call) => read_call(call, body.bytes()),
        InFlight::Rate => Err(Refusal::Rate),
        InFlight::Wind => Ok(Input::Wind),
    }
}
