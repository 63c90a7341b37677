// The heading target of waypoint and land flight, from leg_heading.rs: turned to a heading that is
// commanded, along the leg, or with a wingtip into the wind on station, and given up to the craft's own
// heading once it is stuck off the target. A turn goes the shorter way round, and is not yet wrapped.
ghost use Rattle.std.specs.Prelude.{◌≡◌};
ghost use Rattle.floats.specs.Ops.{◌⊗◌};
ghost use Rattle.heading.specs.LegHeading.{fresh, cleared, on_leg, leg_bearing, new_leg, bearing, on_station, station_turn, stuck, stuck_for, counted, yielded, turned_toward, commanded_turn, turned_along, along_leg, target, land_target};
ghost use Rattle.heading.specs.Inner.{toward, commanded_angle, approach};

use crate::HeadingConfig;
use crate::wind_heading::{WindHeading, WindTurn};
use math::vectors::Vec2;
use wind::estimate::WindEstimate;
use wind::state::VehicleState;

// A leg: the waypoint's position, and the direction to it from where the leg began; none where it was
// no longer than the least leg then, or its length not a number.
#[derive(Clone, Copy, Default)]
pub struct Leg {
    pub to_m: Vec2,
    pub bearing_rad: Option<f32>,
}

// `leg` is the leg being flown: none outside waypoint flight, while a finite heading is commanded, and
// from a new position on until the craft's own position is finite. `stuck_s` is the yield count: how long
// the heading has been stuck on this leg, and it stays while `yielding`, in which the target is the craft's
// own heading unless the wind gives one. The wind heading outlasts legs and land calls.
#[derive(Clone, Copy, Default)]
pub struct LegHeading {
    pub leg: Option<Leg>,
    pub stuck_s: f32,
    pub yielding: bool,
    pub wind: WindHeading,
}

// What a call flies to: a waypoint's position with the heading that is commanded there, or the
// ground, which is a goal too, and not the want of one.
#[derive(Clone, Copy)]
pub enum Goal {
    Waypoint(Vec2, Option<f32>),
    Land,
}

// What a waypoint or land call turns the heading by: its time step, the heading target before it, the
// wind's estimate and the craft's state.
#[derive(Clone, Copy)]
pub struct HeadingCall {
    pub dt: f32,
    pub config: HeadingConfig,
    pub target_rad: f32,
    pub estimate: Option<WindEstimate>,
    pub state: VehicleState,
}

// The memory after a call, and the heading target.
#[derive(Clone, Copy)]
pub struct Turn {
    pub memory: LegHeading,
    pub heading_rad: f32,
}

// The memory with the leg to a waypoint's position, and the leg's direction.
#[derive(Clone, Copy)]
pub struct Bearing {
    pub memory: LegHeading,
    pub bearing_rad: Option<f32>,
}

// What a call knows of its goal before it asks the wind: the memory with the leg, the leg's direction,
// and whether the craft is on station, which it may be with a direction too.
#[derive(Clone, Copy)]
pub struct Approach {
    pub memory: LegHeading,
    pub bearing_rad: Option<f32>,
    pub on_station: bool,
}

// The memory with the yield count as it is after the call, and whether the heading is yielded.
#[derive(Clone, Copy)]
pub struct Yielded {
    pub memory: LegHeading,
    pub yields: bool,
}

impl LegHeading {
    #[tactic(auto, unfolding(crate::specs::LegHeading::fresh, crate::specs::WindHeading::fresh))]
    pub fn new() -> LegHeading
        ensures { result ≡ fresh }
    {
        LegHeading::default()
    }

    // Forgets the leg, its count and its yielding, and keeps the wind heading with its side.
    #[tactic(auto, unfolding(crate::specs::LegHeading::cleared, crate::specs::LegHeading::fresh))]
    pub fn clear(self) -> LegHeading
        ensures { result ≡ cleared self }
    {
        LegHeading {
            wind: self.wind,
            ..LegHeading::new()
        }
    }

    // The heading target of a waypoint call, from the one before it.
    #[tactic(auto, unfolding(crate::specs::Inner::toward))]
    pub fn target_rad(self, call: HeadingCall, position_m: Vec2, commanded: Option<f32>) -> Turn
        ensures { result ≡ target self call.dt call.config call.target_rad position_m commanded call.estimate call.state }
    {
        self.toward(call, Goal::Waypoint(position_m, commanded))
    }

    // The heading target of a land call: the one before it, or turned with the wind.
    #[tactic(auto, unfolding(crate::specs::Inner::toward))]
    pub fn land_target_rad(self, call: HeadingCall) -> Turn
        ensures { result ≡ land_target self call.dt call.config call.target_rad call.estimate call.state }
    {
        self.toward(call, Goal::Land)
    }

    // The heading target for what a call flies to. A finite commanded heading resets all and is turned
    // to. Else the wind's heading is, on station and where the wind gives one. Else a land call keeps
    // the target, and a waypoint call turns it along the leg or yields it.
    #[tactic(auto, using(crate::proofs::Laws::Toward::toward_commanded, crate::proofs::Laws::Toward::toward_uncommanded), unfolding(crate::proofs::Laws::Toward::turned_for, crate::specs::LegHeading::with_wind))]
    pub fn toward(self, call: HeadingCall, goal: Goal) -> Turn
        ensures { result ≡ toward self call.dt call.config call.target_rad goal call.estimate call.state }
    {
        if let Some(heading_rad) = goal.commanded_rad() {
            return Turn {
                memory: LegHeading::new(),
                heading_rad: call.turned_to(heading_rad),
            };
        }
        let approach = self.approach(call, goal);
        // A goal leaves the wind heading as it is, so it is the one that the call began with.
        let turn = call.station_turn(approach.on_station, self.wind);
        let memory = LegHeading {
            wind: turn.wind,
            ..approach.memory
        };
        if let Some(heading_rad) = turn.target_rad {
            return Turn {
                memory,
                heading_rad: call.turned_to(heading_rad),
            };
        }
        match goal {
            Goal::Waypoint(..) => memory.along_leg(call, approach.bearing_rad),
            Goal::Land => Turn {
                memory,
                heading_rad: call.target_rad,
            },
        }
    }

    // What is known of the goal. A land call is on station, with no leg.
    #[tactic(auto, unfolding(crate::specs::Inner::approach))]
    fn approach(self, call: HeadingCall, goal: Goal) -> Approach
        ensures { result ≡ approach self call.config goal call.state }
    {
        let Goal::Waypoint(position_m, _) = goal else {
            return Approach {
                memory: self.clear(),
                bearing_rad: None,
                on_station: true,
            };
        };
        let here_m = call.state.position_m.horizontal();
        let bearing = self.bearing_rad(call.config, position_m, here_m);
        Approach {
            memory: bearing.memory,
            bearing_rad: bearing.bearing_rad,
            on_station: on_station(bearing.bearing_rad, call.config, position_m - here_m),
        }
    }

    // The craft's own heading where it yields, else along the leg.
    #[tactic(auto, unfolding(crate::specs::LegHeading::along_leg))]
    fn along_leg(self, call: HeadingCall, bearing_rad: Option<f32>) -> Turn
        ensures { result ≡ along_leg self call.dt call.config call.target_rad bearing_rad call.state }
    {
        let yielded = self.yielded(call);
        Turn {
            memory: yielded.memory,
            heading_rad: if yielded.yields {
                call.state.heading_rad
            } else {
                call.turned_along(bearing_rad)
            },
        }
    }

    // The direction of the leg to the waypoint. A position that is not the leg's is new, as every one
    // is with no leg: it starts a leg, or none where the craft's own position is not finite.
    #[tactic(auto, unfolding(crate::specs::LegHeading::bearing, crate::specs::LegHeading::bearing_of))]
    fn bearing_rad(self, config: HeadingConfig, position_m: Vec2, here_m: Vec2) -> Bearing
        ensures { result ≡ bearing self config position_m here_m }
    {
        if let Some(leg) = self.leg
            && on_leg(leg, position_m)
        {
            return Bearing {
                memory: self,
                bearing_rad: leg.bearing_rad,
            };
        }
        self.new_leg(config, position_m, here_m)
    }

    // A leg to a new position, with nothing stuck.
    #[tactic(auto, unfolding(crate::specs::LegHeading::new_leg, crate::specs::LegHeading::cleared))]
    fn new_leg(self, config: HeadingConfig, position_m: Vec2, here_m: Vec2) -> Bearing
        ensures { result ≡ new_leg self config position_m here_m }
    {
        if math::all_finite(here_m) {
            let bearing_rad = leg_bearing(config, position_m - here_m);
            return Bearing {
                memory: LegHeading {
                    leg: Some(Leg {
                        to_m: position_m,
                        bearing_rad,
                    }),
                    ..self.clear()
                },
                bearing_rad,
            };
        }
        Bearing {
            memory: self.clear(),
            bearing_rad: None,
        }
    }

    // Counts how long the heading has been stuck, and yields once that is longer than the yield time.
    // It neither counts nor yields with no yield time or no finite own heading.
    #[tactic(auto, unfolding(crate::specs::LegHeading::yielded))]
    fn yielded(self, call: HeadingCall) -> Yielded
        ensures { result ≡ yielded self call.dt call.config call.target_rad call.state }
    {
        let may_yield = call.config.heading_yield_s > 0.0
            && floats::compare::is_finite(call.state.heading_rad);
        if may_yield && !self.yielding {
            return self.counted(call.stuck_for(self.stuck_s), call.config);
        }
        Yielded {
            memory: self,
            yields: may_yield,
        }
    }

    // The memory with another yield count, which yields if it is above the yield time.
    #[tactic(auto, unfolding(crate::specs::LegHeading::counted))]
    fn counted(self, stuck_s: f32, config: HeadingConfig) -> Yielded
        ensures { result ≡ counted self stuck_s config }
    {
        let yields = stuck_s > config.heading_yield_s;
        Yielded {
            memory: LegHeading {
                stuck_s,
                yielding: yields,
                ..self
            },
            yields,
        }
    }
}

impl Goal {
    // The heading that is commanded, where it is finite; a land call has none.
    #[tactic(auto, unfolding(crate::specs::Inner::commanded_angle, crate::specs::LegHeading::finite_angle, floats::specs::Compare::finite_or_none))]
    fn commanded_rad(self) -> Option<f32>
        ensures { result ≡ commanded_angle self }
    {
        match self {
            Goal::Waypoint(_, commanded) => commanded.and_then(floats::compare::finite),
            Goal::Land => None,
        }
    }
}

impl HeadingCall {
    // The target turned at the heading rate, to a heading that is commanded or the wind's.
    fn turned_to(self, to_rad: f32) -> f32
        ensures { result ≡ commanded_turn self.dt self.config self.target_rad to_rad }
    {
        self.turned(to_rad, self.config.heading_rate_radps)
    }

    // The target turned to a heading, the shorter way round and no faster than a rate: not at all where that
    // is negative or a NaN.
    #[tactic(auto, unfolding(crate::specs::LegHeading::turned_toward))]
    fn turned(self, to_rad: f32, rate_radps: f32) -> f32
        ensures { result ≡ turned_toward self.target_rad to_rad (rate_radps ⊗ self.dt) }
    {
        let error_rad = math::wrap_angle(to_rad - self.target_rad);
        self.target_rad + math::clamp_symmetric(error_rad, rate_radps * self.dt)
    }

    // The target turned along a leg with a direction, with a positive yaw rate.
    #[tactic(auto, unfolding(crate::specs::LegHeading::turned_along))]
    fn turned_along(self, bearing_rad: Option<f32>) -> f32
        ensures { result ≡ turned_along bearing_rad self.dt self.config self.target_rad }
    {
        match bearing_rad {
            Some(to_rad) if self.config.waypoint_yaw_radps > 0.0 => {
                self.turned(to_rad, self.config.waypoint_yaw_radps)
            }
            _ => self.target_rad,
        }
    }

    // The wind's heading, which is asked for on station only.
    #[tactic(auto, unfolding(crate::specs::LegHeading::station_turn))]
    fn station_turn(self, on_station: bool, wind: WindHeading) -> WindTurn
        ensures { result ≡ station_turn on_station wind self.config self.estimate self.state.heading_rad }
    {
        if on_station {
            return wind.target_rad(self.config, self.estimate, self.state.heading_rad);
        }
        WindTurn {
            wind,
            target_rad: None,
        }
    }

    // Whether the heading is stuck: off the target by more than the yield angle, while the craft turns
    // towards it slower than the yield rate. A NaN error or rate is not stuck.
    #[tactic(auto, unfolding(crate::specs::LegHeading::stuck))]
    fn stuck(self) -> bool
        ensures { result ≡ stuck self.config self.target_rad self.state }
    {
        let error_rad = math::wrap_angle(self.target_rad - self.state.heading_rad);
        let toward_radps = floats::compare::signum(error_rad) * self.state.angular_velocity_z_radps;
        floats::compare::abs(error_rad) > self.config.heading_yield_rad
            && toward_radps < self.config.heading_yield_rate_radps
    }

    // The yield count after a call: longer by dt while stuck, else 0.
    #[tactic(auto, unfolding(crate::specs::LegHeading::stuck_for))]
    fn stuck_for(self, stuck_s: f32) -> f32
        ensures { result ≡ stuck_for stuck_s self.dt self.config self.target_rad self.state }
    {
        if self.stuck() { stuck_s + self.dt } else { 0.0 }
    }
}

// Whether a position is the leg's: a NaN never is.
#[tactic(auto, unfolding(crate::specs::LegHeading::on_leg, crate::specs::Equality::same_vector))]
fn on_leg(leg: Leg, position_m: Vec2) -> bool
    ensures { result ≡ on_leg leg position_m }
{
    leg.to_m == position_m
}

// The direction of a leg that is longer than the least one; none for a NaN.
#[tactic(auto, unfolding(crate::specs::LegHeading::leg_bearing))]
fn leg_bearing(config: HeadingConfig, leg_m: Vec2) -> Option<f32>
    ensures { result ≡ leg_bearing config leg_m }
{
    (leg_m.norm() > config.waypoint_yaw_min_leg_m).then(|| floats::atan::atan2f(leg_m.y, leg_m.x))
}

// Whether the craft is on station: its leg has no direction, or it is within the least leg of the
// waypoint, which a NaN is not.
#[tactic(auto, unfolding(crate::specs::LegHeading::on_station, math::specs::Inner::within))]
fn on_station(bearing_rad: Option<f32>, config: HeadingConfig, to_m: Vec2) -> bool
    ensures { result ≡ on_station bearing_rad config to_m }
{
    bearing_rad.is_none() || math::within(to_m, config.waypoint_yaw_min_leg_m)
}
