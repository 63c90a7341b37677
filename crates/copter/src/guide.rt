// The five calls, by their commands, the priming and the wind reading.
ghost use Rattle.std.specs.Prelude.{◌≡◌};
ghost use Rattle.copter.specs.Guide.{heading_target, followed_heading, command_heading, navigated_thrust, altitude_control, piloted_flags, fly_to, attitude_call, absolute_attitude_call, absolute_rate_call, waypoint_call, land_call, guide_call, new_craft, prime, wind_reading};
ghost use Rattle.copter.specs.Plan.{craft_of, steered, steer, turn_for, flown};

use crate::call::GuidanceCall;
use crate::commands::{
    AbsoluteAttitudeCommand, AbsoluteRateCommand, AttitudeCommand, AttitudeSetpoint,
    BodyRateSetpoint, Command, Flags, LandCommand, Setpoint, WaypointCommand,
};
use crate::config::CopterGuidanceConfig;
use crate::descent::Descended;
use crate::memory::{CopterGuidance, Memory, VerticalMemory};
use crate::thrust::{PilotedThrust, Thrust, boosted, floor_thrust, hold_absolute, hold_piloted};
use crate::tilt::Course;
use altitude::{AltitudeControl, AltitudeEstimate, AltitudeTarget};
use floats::compare::finite;
use heading::hover_wind::HoverWind;
use heading::leg_heading::{Goal, HeadingCall, Turn};
use wind::estimate::WindEstimate;
use wind::state::VehicleState;

// The craft after a call, its setpoint and its flags.
#[derive(Clone, Copy)]
pub struct Guided {
    pub craft: CopterGuidance,
    pub setpoint: Setpoint,
    pub flags: Flags,
}

// What a piloted call answers, and the heading target that it leaves.
#[derive(Clone, Copy)]
pub struct Steered {
    pub heading_rad: f32,
    pub setpoint: Setpoint,
    pub flags: Flags,
}

// What a command flies once the wind is updated: a course at an altitude target with the heading
// turned for a goal, or what the pilot commands.
#[derive(Clone, Copy)]
pub enum Plan {
    Navigated(Course, Descended, Goal),
    Piloted(Steered),
}

// The heading target: wrapped; where the wrap is not finite the wrapped estimate; else kept.
#[tactic(auto, unfolding(crate::specs::Guide::heading_target, floats::specs::Compare::finite_or_none))]
fn heading_target(kept_rad: f32, target_rad: f32, estimate_rad: f32) -> f32
    ensures { result ≡ heading_target kept_rad target_rad estimate_rad }
{
    finite(math::wrap_angle(target_rad)).unwrap_or_else(|| followed_heading(kept_rad, estimate_rad))
}

// The wrapped estimate, or the heading kept where the estimate is not finite.
#[tactic(auto, unfolding(crate::specs::Guide::followed_heading, floats::specs::Compare::finite_or_none))]
fn followed_heading(kept_rad: f32, estimate_rad: f32) -> f32
    ensures { result ≡ followed_heading kept_rad estimate_rad }
{
    finite(estimate_rad).map_or(kept_rad, |heading_rad| math::wrap_angle(heading_rad))
}

// A commanded heading that is not finite holds the present target.
#[tactic(auto, unfolding(crate::specs::Guide::command_heading, floats::specs::Compare::finite_or_none))]
fn command_heading(kept_rad: f32, commanded_rad: f32) -> f32
    ensures { result ≡ command_heading kept_rad commanded_rad }
{
    finite(commanded_rad).unwrap_or(kept_rad)
}

impl CopterGuidance {
    // A fresh craft.
    #[tactic(auto, unfolding(crate::specs::Guide::new_craft))]
    pub fn new(config: CopterGuidanceConfig) -> CopterGuidance
        ensures { result ≡ new_craft config }
    {
        CopterGuidance {
            config,
            memory: Memory::new(),
        }
    }

    // Latches the heading as it is; the wind is forgotten on the ground and kept in the air.
    #[tactic(auto, unfolding(crate::specs::Guide::prime, crate::specs::Memory::fresh))]
    pub fn prime(self, state: VehicleState) -> CopterGuidance
        ensures { result ≡ prime self state }
    {
        CopterGuidance {
            config: self.config,
            memory: Memory {
                heading_rad: state.heading_rad,
                wind: self
                    .memory
                    .wind
                    .prime(self.config.guidance.airborne_height_m, state),
                ..Memory::new()
            },
        }
    }

    // The wind estimate; none until a window has closed since it was last forgotten.
    #[tactic(auto, unfolding(crate::specs::Guide::wind_reading))]
    pub fn wind(self) -> Option<WindEstimate>
        ensures { result ≡ wind_reading self }
    {
        self.memory.wind.estimate()
    }

    // A call with its command: the wind is updated first. It goes beside the memory from here on, since the
    // definitions take the craft as the call found it.
    #[tactic(auto, unfolding(crate::specs::Guide::wind_updated, crate::specs::Plan::flown))]
    pub fn guide(self, dt: f32, state: VehicleState, command: Command) -> Guided
        ensures { result ≡ guide_call self dt state command }
    {
        let memory = self.memory;
        let wind = memory.wind.update(
            dt,
            self.config.wind,
            self.config.guidance.airborne_height_m,
            state,
        );
        let call = GuidanceCall {
            config: self.config,
            dt,
            state,
        };
        match memory.plan(call, command) {
            Plan::Navigated(course, descended, goal) => {
                let turn = memory.turn_for(call, goal, wind);
                memory.fly_to(call, course, descended, turn, wind)
            }
            Plan::Piloted(steered) => memory.steer(call, steered, wind),
        }
    }
}

impl Memory {
    // What a command flies; each brings its own fields, so the enum that holds them picks the step.
    #[tactic(auto, unfolding(crate::specs::Guide::guide_call, crate::specs::Plan::flown, crate::specs::Plan::steer, crate::specs::Plan::steered, crate::specs::Guide::attitude_call, crate::specs::Guide::absolute_attitude_call, crate::specs::Guide::absolute_rate_call, crate::specs::Guide::piloted))]
    fn plan(self, call: GuidanceCall, command: Command) -> Plan
        ensures { flown (craft_of call self) call.dt call.state result ≡ guide_call (craft_of call self) call.dt call.state command }
    {
        match command {
            Command::Attitude(c) => Plan::Piloted(self.attitude_setpoint(call, c)),
            Command::Waypoint(c) => self.navigate(call, c),
            Command::AbsoluteAttitude(c) => Plan::Piloted(self.absolute_attitude_setpoint(call, c)),
            Command::Land(c) => self.land_leg(call, c),
            Command::AbsoluteRate(c) => Plan::Piloted(self.absolute_rate_setpoint(call, c)),
        }
    }

    // Sticks to roll, pitch, heading and thrust.
    #[tactic(auto, unfolding(crate::specs::Plan::steered, crate::specs::Guide::attitude_call, crate::specs::Guide::piloted))]
    fn attitude_setpoint(self, call: GuidanceCall, command: AttitudeCommand) -> Steered
        ensures { result ≡ steered (attitude_call (craft_of call self) call.dt call.state command) }
    {
        let guidance = call.config.guidance;
        let turned = self.heading_rad
            + math::saturate_unit(command.yaw) * guidance.stick_yaw_rate_radps * call.dt;
        let heading_rad = heading_target(self.heading_rad, turned, call.state.heading_rad);
        let raised = boosted(
            command.throttle,
            call.state.attitude,
            call.config.thrust.max_boost_thrust,
        );
        let held = hold_piloted(
            command.throttle,
            raised,
            call.state.velocity_mps.z,
            guidance.idle_throttle,
            call.config.thrust,
        );
        Steered {
            heading_rad,
            setpoint: Setpoint::Attitude(AttitudeSetpoint {
                roll_rad: math::saturate_unit(command.roll) * guidance.max_stick_angles_rad.x,
                pitch_rad: math::saturate_unit(command.pitch) * guidance.max_stick_angles_rad.y,
                heading_rad,
                thrust: held.value,
            }),
            flags: Flags::from(held),
        }
    }

    // Roll and pitch as commanded; the heading replaces the heading target.
    #[tactic(auto, unfolding(crate::specs::Plan::steered, crate::specs::Guide::absolute_attitude_call, crate::specs::Guide::piloted))]
    fn absolute_attitude_setpoint(
        self,
        call: GuidanceCall,
        command: AbsoluteAttitudeCommand,
    ) -> Steered
        ensures { result ≡ steered (absolute_attitude_call (craft_of call self) call.dt call.state command) }
    {
        let target_rad = command_heading(self.heading_rad, command.heading_rad);
        let heading_rad = heading_target(self.heading_rad, target_rad, call.state.heading_rad);
        let held = hold_absolute(command.thrust, call.state.velocity_mps.z, call.config);
        Steered {
            heading_rad,
            setpoint: Setpoint::Attitude(AttitudeSetpoint {
                roll_rad: command.roll_rad,
                pitch_rad: command.pitch_rad,
                heading_rad,
                thrust: held.value,
            }),
            flags: Flags::from(held),
        }
    }

    // Rates as commanded; the heading target follows the craft.
    #[tactic(auto, unfolding(crate::specs::Plan::steered, crate::specs::Guide::absolute_rate_call, crate::specs::Guide::piloted))]
    fn absolute_rate_setpoint(self, call: GuidanceCall, command: AbsoluteRateCommand) -> Steered
        ensures { result ≡ steered (absolute_rate_call (craft_of call self) call.dt call.state command) }
    {
        let held = hold_absolute(command.thrust, call.state.velocity_mps.z, call.config);
        Steered {
            heading_rad: followed_heading(self.heading_rad, call.state.heading_rad),
            setpoint: Setpoint::BodyRate(BodyRateSetpoint {
                roll_radps: command.roll_radps,
                pitch_radps: command.pitch_radps,
                yaw_radps: command.yaw_radps,
                thrust: held.value,
            }),
            flags: Flags::from(held),
        }
    }

    // Toward a waypoint.
    #[tactic(auto, unfolding(crate::specs::Plan::flown, crate::specs::Plan::turn_for, heading::specs::Inner::toward, crate::specs::Guide::waypoint_call))]
    fn navigate(self, call: GuidanceCall, command: WaypointCommand) -> Plan
        ensures { flown (craft_of call self) call.dt call.state result ≡ waypoint_call (craft_of call self) call.dt call.state command }
    {
        let course = Course {
            position_m: command.position_m,
            velocity_mps: command.velocity_mps,
            cruise_speed_mps: command.cruise_speed_mps,
        };
        let descended = self.vertical.descend_toward(call, command.altitude_m);
        let goal = Goal::Waypoint(command.position_m, command.heading_rad);
        Plan::Navigated(course, descended, goal)
    }

    // Down to a position, with an altitude target that keeps descending.
    #[tactic(auto, unfolding(crate::specs::Plan::flown, crate::specs::Plan::turn_for, heading::specs::Inner::toward, crate::specs::Guide::land_call))]
    fn land_leg(self, call: GuidanceCall, command: LandCommand) -> Plan
        ensures { flown (craft_of call self) call.dt call.state result ≡ land_call (craft_of call self) call.dt call.state command }
    {
        let course = Course {
            position_m: command.position_m,
            velocity_mps: None,
            // No cap, as in a record, where every number that is not positive is none.
            cruise_speed_mps: 0.0,
        };
        Plan::Navigated(course, self.vertical.land_descent(call), Goal::Land)
    }

    // The heading turned for a goal, with the wind updated.
    #[tactic(auto, unfolding(crate::specs::Plan::turn_for))]
    fn turn_for(self, call: GuidanceCall, goal: Goal, wind: HoverWind) -> Turn
        ensures { result ≡ turn_for (craft_of call self) call.dt call.state goal wind }
    {
        let heading_call = HeadingCall {
            dt: call.dt,
            config: call.config.guidance.heading,
            target_rad: self.heading_rad,
            estimate: wind.estimate(),
            state: call.state,
        };
        self.leg_heading.toward(heading_call, goal)
    }

    // A piloted call, with the wind updated: all of navigation is reset but the stored tilt and whether it
    // was capped.
    #[tactic(auto, unfolding(crate::specs::Plan::steer, crate::specs::Memory::fresh))]
    fn steer(self, call: GuidanceCall, steered: Steered, wind: HoverWind) -> Guided
        ensures { result ≡ steer (craft_of call self) steered wind }
    {
        Guided {
            craft: CopterGuidance {
                config: call.config,
                memory: Memory {
                    lateral: self.lateral.reset(),
                    heading_rad: steered.heading_rad,
                    wind,
                    ..Memory::new()
                },
            },
            setpoint: steered.setpoint,
            flags: steered.flags,
        }
    }

    // Flies a course at an altitude target, with the heading turned and the wind updated.
    #[tactic(auto, unfolding(crate::specs::Guide::fly_to))]
    fn fly_to(
        self,
        call: GuidanceCall,
        course: Course,
        descended: Descended,
        turn: Turn,
        wind: HoverWind,
    ) -> Guided
        ensures { result ≡ fly_to (craft_of call self) call.dt call.state course descended turn wind }
    {
        let turned_rad = heading_target(self.heading_rad, turn.heading_rad, call.state.heading_rad);
        let heading_rad = heading_target(turned_rad, turned_rad, call.state.heading_rad);
        let tilted = self.lateral.tilt_toward(call, course, wind.estimate());
        let control = self.vertical.altitude_control(call, descended.target);
        let thrust = navigated_thrust(control.thrust, call.config.thrust.min_thrust);
        Guided {
            craft: CopterGuidance {
                config: call.config,
                memory: Memory {
                    vertical: VerticalMemory {
                        controller: control.controller,
                        target: descended.hold,
                        descent_speed_mps: descended.speed_mps,
                    },
                    lateral: tilted.memory,
                    heading_rad,
                    leg_heading: turn.memory,
                    wind,
                },
            },
            setpoint: Setpoint::Attitude(AttitudeSetpoint {
                roll_rad: tilted.tilt_rad.x,
                pitch_rad: tilted.tilt_rad.y,
                heading_rad,
                thrust: thrust.value,
            }),
            flags: Flags {
                tilt: tilted.memory.tilt_capped,
                thrust: thrust.saturated,
                idle: false,
            },
        }
    }
}

impl VerticalMemory {
    // A run of the altitude loop.
    #[tactic(auto, unfolding(crate::specs::Guide::altitude_control))]
    fn altitude_control(self, call: GuidanceCall, target: AltitudeTarget) -> AltitudeControl
        ensures { result ≡ altitude_control self call.config call.dt target call.state }
    {
        self.controller.control(
            call.config.altitude,
            call.dt,
            target,
            AltitudeEstimate {
                altitude_m: call.state.position_m.z,
                velocity_mps: call.state.velocity_mps.z,
                attitude: call.state.attitude,
            },
        )
    }
}

// The altitude loop's thrust, floored. A thrust on a bound of [0, 1] was clipped.
#[tactic(auto, unfolding(crate::specs::Guide::navigated_thrust))]
fn navigated_thrust(linear_thrust: f32, min_thrust: f32) -> Thrust
    ensures { result ≡ navigated_thrust linear_thrust min_thrust }
{
    let floored = floor_thrust(linear_thrust, min_thrust);
    let on_bound = linear_thrust <= 0.0 || linear_thrust >= 1.0;
    Thrust {
        value: floored.value,
        saturated: on_bound || floored.saturated,
    }
}

// A piloted call never saturates the tilt.
impl From<PilotedThrust> for Flags {
    ghost from_gives = { λ held flags. flags ≡ piloted_flags held };

    #[tactic(auto, unfolding(crate::specs::Guide::piloted_flags))]
    fn from(held: PilotedThrust) -> Flags {
        Flags {
            tilt: false,
            thrust: held.saturated,
            idle: held.idle,
        }
    }
}
