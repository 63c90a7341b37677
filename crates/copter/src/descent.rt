// How the altitude target moves: up at once, down along a ramp.
ghost use Rattle.std.specs.Prelude.{◌≡◌};
ghost use Rattle.floats.specs.Ops.{◌⊗◌};
ghost use Rattle.copter.specs.Descent.{lowered, descent_start, ramped_descent, descent_rate, toward, descend_toward, landing, land_descent};

use crate::call::GuidanceCall;
use crate::memory::VerticalMemory;
use altitude::AltitudeTarget;
use floats::compare::finite;
use floats::minmax::{max, min};
use wind::state::VehicleState;

// Where a descent's target moves from, and its speed, negative while it climbs.
#[derive(Clone, Copy)]
pub struct Descent {
    pub start_m: f32,
    pub speed_mps: f32,
}

// The target of a call, and what is remembered of it.
#[derive(Clone, Copy)]
pub struct Descended {
    pub target: AltitudeTarget,
    pub hold: Option<f32>,
    pub speed_mps: f32,
}

impl GuidanceCall {
    // A target lowered at a rate, but no further than the leash below the craft. A NaN altitude keeps
    // lowering a target.
    #[tactic(auto, unfolding(crate::specs::Descent::lowered))]
    fn lowered_m(self, start_m: f32, rate_mps: f32) -> f32
        ensures { result ≡ lowered start_m (rate_mps ⊗ self.dt) self.state.position_m.z self.config.guidance.altitude_leash_m }
    {
        let lowest_m = self.state.position_m.z - self.config.guidance.altitude_leash_m;
        max(start_m - rate_mps * self.dt, lowest_m)
    }

    // `limit_mps`, or less while the target sheds a climb or speeds up.
    #[tactic(auto, unfolding(crate::specs::Descent::ramped_descent))]
    fn ramped_descent_mps(self, limit_mps: f32, speed_mps: f32) -> f32
        ensures { result ≡ ramped_descent self.config self.dt limit_mps speed_mps }
    {
        let accel_mps2 = if speed_mps < 0.0 {
            self.config.guidance.climb_decel_mps2
        } else {
            self.config.guidance.descent_accel_mps2
        };
        min(limit_mps, speed_mps + accel_mps2 * self.dt)
    }

    // The rate toward a waypoint `height_m` below the target.
    #[tactic(auto, unfolding(crate::specs::Descent::descent_rate, math::specs::Inner::limited_closing_speed))]
    fn descent_rate_mps(self, height_m: f32) -> f32
        ensures { result ≡ descent_rate self.config height_m }
    {
        math::limited_closing_speed(
            height_m,
            self.config.altitude.gains.p,
            self.config.guidance.descent_accel_mps2,
            self.config.guidance.max_descent_mps,
        )
    }

    // The target toward a waypoint from where the descent starts.
    #[tactic(auto, unfolding(crate::specs::Descent::toward))]
    fn toward(self, waypoint_m: f32, from: Descent) -> AltitudeTarget
        ensures { result ≡ toward self.config self.dt waypoint_m self.state.position_m.z from }
    {
        let closing_mps = self.descent_rate_mps(from.start_m - waypoint_m);
        let rate_mps = self.ramped_descent_mps(closing_mps, from.speed_mps);
        let step_m = self.lowered_m(from.start_m, rate_mps);
        if waypoint_m < step_m {
            return AltitudeTarget {
                altitude_m: step_m,
                velocity_mps: -min(self.descent_rate_mps(step_m - waypoint_m), rate_mps),
            };
        }
        AltitudeTarget {
            altitude_m: waypoint_m,
            velocity_mps: 0.0,
        }
    }
}

impl VerticalMemory {
    // None until there is a finite altitude to descend from: from the remembered target, or from the craft's
    // altitude at the craft's climb; a sink or an unknown climb starts at rest.
    #[tactic(auto, unfolding(crate::specs::Descent::descent_start, floats::specs::Compare::finite_or_none))]
    fn descent_start(self, state: VehicleState) -> Option<Descent>
        ensures { result ≡ descent_start self.target self.descent_speed_mps state.position_m.z state.velocity_mps.z }
    {
        self.target
            .map(|start_m| Descent {
                start_m,
                speed_mps: self.descent_speed_mps,
            })
            .or_else(|| finite(state.position_m.z).map(|start_m| Descent {
                start_m,
                speed_mps: -max(state.velocity_mps.z, 0.0),
            }))
    }

    // The target of a waypoint call. With no target and no finite altitude it flies level to the waypoint's.
    #[tactic(auto, unfolding(crate::specs::Descent::descend_toward, crate::specs::Descent::descended_from, crate::specs::Descent::finite_height, floats::specs::Compare::finite_or_none))]
    pub fn descend_toward(self, call: GuidanceCall, waypoint_m: f32) -> Descended
        ensures { result ≡ descend_toward call.config call.dt self.target self.descent_speed_mps waypoint_m call.state.position_m.z call.state.velocity_mps.z }
    {
        let Some(from) = self.descent_start(call.state) else {
            return Descended {
                target: AltitudeTarget {
                    altitude_m: waypoint_m,
                    velocity_mps: 0.0,
                },
                hold: self.target,
                speed_mps: 0.0,
            };
        };
        let target = call.toward(waypoint_m, from);
        Descended {
            target,
            hold: finite(target.altitude_m),
            speed_mps: -target.velocity_mps,
        }
    }

    // The target of a land call, which keeps descending. With no target and no finite altitude it is a NaN.
    #[tactic(auto, unfolding(crate::specs::Descent::land_descent, crate::specs::Descent::landed_from))]
    pub fn land_descent(self, call: GuidanceCall) -> Descended
        ensures { result ≡ land_descent call.config call.dt self.target self.descent_speed_mps call.state.position_m.z call.state.velocity_mps.z }
    {
        let limit_mps = call.config.guidance.land_speed_mps;
        let Some(from) = self.descent_start(call.state) else {
            return Descended {
                target: AltitudeTarget {
                    altitude_m: f32::NAN,
                    velocity_mps: -call.ramped_descent_mps(limit_mps, self.descent_speed_mps),
                },
                hold: None,
                speed_mps: 0.0,
            };
        };
        let rate_mps = call.ramped_descent_mps(limit_mps, from.speed_mps);
        landing(call.lowered_m(from.start_m, rate_mps), rate_mps)
    }
}

// The rate is remembered only with a finite target, so that a later descent starts from rest.
#[tactic(auto, unfolding(crate::specs::Descent::landing, floats::specs::Compare::finite_or_none))]
fn landing(target_m: f32, rate_mps: f32) -> Descended
    ensures { result ≡ landing target_m rate_mps }
{
    let hold = finite(target_m);
    Descended {
        target: AltitudeTarget {
            altitude_m: target_m,
            velocity_mps: -rate_mps,
        },
        hold,
        speed_mps: if hold.is_some() { rate_mps } else { 0.0 },
    }
}
