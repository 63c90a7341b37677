// The tilt toward a waypoint: the lateral loop's acceleration, the drag fed forward, and the cap.
ghost use Rattle.std.specs.Prelude.{◌≡◌};
ghost use Rattle.copter.specs.Tilt.{rotation, into_body, from_body, tilt_for_acceleration, drag_feedforward, wind_or_zero, lateral_target, lateral_estimate, navigable, held, levelled, limit, run, tilt_toward};

use crate::call::GuidanceCall;
use crate::memory::LateralMemory;
use controllers::rate_divider::RateDivider;
use floats::compare::is_finite;
use lateral::{LateralEstimate, LateralTarget};
use math::vectors::Vec2;
use wind::drag::WindConfig;
use wind::estimate::WindEstimate;
use wind::state::VehicleState;

// Where to fly: a position, the target's own velocity and the largest speed.
#[derive(Clone, Copy)]
pub struct Course {
    pub position_m: Vec2,
    pub velocity_mps: Option<Vec2>,
    pub cruise_speed_mps: f32,
}

// The lateral memory after a call, and the tilt that it asks for, roll and pitch.
#[derive(Clone, Copy)]
pub struct Tilted {
    pub memory: LateralMemory,
    pub tilt_rad: Vec2,
}

// A heading's sine and cosine, which turn a vector from north and east into the body's axes, ahead and
// right, and back.
#[derive(Clone, Copy)]
struct Rotation {
    sin: f32,
    cos: f32,
}

impl Rotation {
    fn to(heading_rad: f32) -> Rotation
        ensures { result ≡ rotation heading_rad }
    {
        Rotation {
            sin: floats::sin_cos::sinf(heading_rad),
            cos: floats::sin_cos::cosf(heading_rad),
        }
    }

    fn into_body(self, v: Vec2) -> Vec2
        ensures { result ≡ into_body self v }
    {
        Vec2 {
            x: v.x * self.cos + v.y * self.sin,
            y: -v.x * self.sin + v.y * self.cos,
        }
    }

    fn from_body(self, v: Vec2) -> Vec2
        ensures { result ≡ from_body self v }
    {
        Vec2 {
            x: v.x * self.cos - v.y * self.sin,
            y: v.x * self.sin + v.y * self.cos,
        }
    }
}

// Roll and pitch, at a heading, that point the thrust to give an acceleration north and east: a tilt
// of atan(|a| / g) toward it. Level where a number is not finite.
#[tactic(auto, unfolding(crate::specs::Tilt::tilt_for_acceleration))]
pub fn tilt_for_acceleration(accel_mps2: Vec2, heading_rad: f32) -> Vec2
    ensures { result ≡ tilt_for_acceleration accel_mps2 heading_rad }
{
    let norm = accel_mps2.norm();
    if !is_finite(norm) || norm == 0.0 || !is_finite(heading_rad) {
        return Vec2::zeros();
    }
    let tilt_rad = floats::atan::atanf(norm / math::GRAVITY);
    let body = Rotation::to(heading_rad).into_body(accel_mps2);
    let toward = Vec2 {
        x: body.y,
        y: -body.x,
    };
    toward * (tilt_rad / norm)
}

// The acceleration that holds off the drag of the commanded velocity past the hold band, through air
// that moves with the wind.
#[tactic(auto, unfolding(crate::specs::Tilt::drag_feedforward))]
pub fn drag_feedforward_mps2(
    config: WindConfig,
    hold_band_mps: f32,
    commanded_mps: Vec2,
    wind_mps: Vec2,
    heading_rad: f32,
) -> Vec2
    ensures { result ≡ drag_feedforward config hold_band_mps commanded_mps wind_mps heading_rad }
{
    let past_band_mps = math::past(commanded_mps, hold_band_mps);
    let rotation = Rotation::to(heading_rad);
    let drag = config.drag_mps2(rotation.into_body(past_band_mps - wind_mps));
    rotation.from_body(Vec2 {
        x: -drag.x,
        y: -drag.y,
    })
}

impl From<Course> for LateralTarget {
    ghost from_gives = { λ course target. target ≡ lateral_target course };

    #[tactic(auto, unfolding(crate::specs::Tilt::lateral_target, crate::specs::Tilt::velocity_or_zero))]
    fn from(course: Course) -> LateralTarget {
        LateralTarget {
            position_m: course.position_m,
            velocity_mps: course.velocity_mps.unwrap_or_default(),
            max_speed_mps: course.cruise_speed_mps,
        }
    }
}

#[tactic(auto, unfolding(crate::specs::Tilt::wind_or_zero))]
fn wind_or_zero(estimate: Option<WindEstimate>) -> Vec2
    ensures { result ≡ wind_or_zero estimate }
{
    estimate.map_or(Vec2::zeros(), |present| present.velocity_mps)
}

// A function, since an impl of `From` belongs to the crate of one of its types.
#[tactic(auto, unfolding(crate::specs::Tilt::lateral_estimate))]
fn lateral_estimate(state: VehicleState) -> LateralEstimate
    ensures { result ≡ lateral_estimate state }
{
    LateralEstimate {
        position_m: state.position_m.horizontal(),
        velocity_mps: state.velocity_mps.horizontal(),
    }
}

// Whether position error, target velocity, own velocity and heading are finite.
#[tactic(auto, unfolding(crate::specs::Tilt::navigable))]
fn navigable(target: LateralTarget, estimate: LateralEstimate, heading_rad: f32) -> bool
    ensures { result ≡ navigable target estimate heading_rad }
{
    math::all_finite(target.position_m - estimate.position_m)
        && math::all_finite(target.velocity_mps)
        && math::all_finite(estimate.velocity_mps)
        && is_finite(heading_rad)
}

impl LateralMemory {
    // The tilt of a waypoint or land call: the stored one where the lateral loop is not due, and
    // level for this call where it is due and a number is not finite.
    #[tactic(auto, unfolding(crate::specs::Tilt::tilt_toward, crate::specs::Tilt::tilted_when))]
    pub fn tilt_toward(
        self,
        call: GuidanceCall,
        course: Course,
        estimate: Option<WindEstimate>,
    ) -> Tilted
        ensures { result ≡ tilt_toward self call.config call.dt course estimate call.state }
    {
        let paced = self
            .rate
            .due(call.dt, call.config.guidance.navigation_period_s);
        let Some(step) = paced.due else {
            return self.held(paced.divider);
        };
        let target = LateralTarget::from(course);
        let own = lateral_estimate(call.state);
        if navigable(target, own, call.state.heading_rad) {
            return self.run(call, step, target, own, wind_or_zero(estimate));
        }
        self.levelled(paced.divider)
    }

    // Not due: the stored tilt, and the divider alone goes on.
    #[tactic(auto, unfolding(crate::specs::Tilt::held))]
    fn held(self, rate: RateDivider) -> Tilted
        ensures { result ≡ held self rate }
    {
        Tilted {
            memory: LateralMemory { rate, ..self },
            tilt_rad: self.tilt_rad,
        }
    }

    // Due with a number that is not finite: level, and the stored tilt stays.
    #[tactic(auto, unfolding(crate::specs::Tilt::levelled))]
    fn levelled(self, rate: RateDivider) -> Tilted
        ensures { result ≡ levelled self rate }
    {
        Tilted {
            memory: LateralMemory {
                rate,
                tilt_capped: false,
                ..self
            },
            tilt_rad: Vec2::zeros(),
        }
    }

    // The acceleration at whose limit the craft flies, or zero.
    #[tactic(auto, unfolding(crate::specs::Tilt::limit))]
    fn limit_mps2(self) -> Vec2
        ensures { result ≡ limit self }
    {
        if self.tilt_capped {
            return self.requested_accel_mps2;
        }
        Vec2::zeros()
    }

    // A run of the lateral loop over a step.
    #[tactic(auto, unfolding(crate::specs::Tilt::run, math::specs::Inner::exceeds))]
    fn run(
        self,
        call: GuidanceCall,
        step: f32,
        target: LateralTarget,
        own: LateralEstimate,
        wind_mps: Vec2,
    ) -> Tilted
        ensures { result ≡ run self call.config step target own wind_mps call.state.heading_rad }
    {
        let control = self
            .controller
            .control(call.config.lateral, step, target, own, self.limit_mps2());
        let feedforward_mps2 = drag_feedforward_mps2(
            call.config.wind,
            call.config.guidance.feedforward_hold_band_mps,
            control.controller.commanded_velocity_mps,
            wind_mps,
            call.state.heading_rad,
        );
        let accel_mps2 = control.accel_mps2 + feedforward_mps2;
        let requested = tilt_for_acceleration(accel_mps2, call.state.heading_rad);
        let tilt_rad = math::cap_magnitude(requested, call.config.guidance.max_tilt_rad);
        Tilted {
            memory: LateralMemory {
                controller: control.controller,
                rate: RateDivider::ran(),
                tilt_rad,
                tilt_capped: math::exceeds(requested, call.config.guidance.max_tilt_rad),
                requested_accel_mps2: accel_mps2,
            },
            tilt_rad,
        }
    }
}
