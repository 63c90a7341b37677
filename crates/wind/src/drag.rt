// The drag along one axis of the thrust frame: a bluff body's, which grows with the airspeed, and the
// rotors' momentum drag.
ghost use Rattle.std.specs.Prelude.{◌≡◌, true};
ghost use Rattle.math.specs.Math.{zero};
ghost use Rattle.wind.specs.Drag.{config_of, is_on, axis_drag, airspeed, push, slope, newton_step, still_air, against, air_velocity, drag_along, drag};
ghost use Rattle.wind.specs.Inner.{three_steps, air_and_slope, with_slope};

use math::vectors::Vec2;

// Sea-level air density, in kg/m³.
pub const AIR_DENSITY_KGPM3: f32 = 1.225;

// Document 01's fields 42 to 50, in the order of the source: the drag along the thrust frame's x and
// y, where 0 leaves a term out, the filter's noise, and the most speed along the thrust axis.
#[derive(Clone, Copy)]
pub struct WindConfig {
    pub ballistic_kgpm2: Vec2,
    pub momentum_per_s: Vec2,
    pub force_noise_mps2: f32,
    pub process_noise_mps_per_rt_s: f32,
    pub initial_sd_mps: f32,
    pub gate_sigma: f32,
    pub max_axial_speed_mps: f32,
}

// The drag along one axis: `(k·V + μ)·v` for an air velocity of size v along it and an airspeed V. k
// is 0 without a ballistic figure.
#[derive(Clone, Copy)]
pub struct AxisDrag {
    pub k_per_m: f32,
    pub mu_per_s: f32,
}

// The air velocity along an axis, and the drag's slope there.
#[derive(Clone, Copy)]
pub struct AirVelocity {
    pub along_mps: f32,
    pub slope_per_s: f32,
}

// A speed that Newton's method has found, and the push's slope there or at the speed before.
#[derive(Clone, Copy)]
pub struct Step {
    pub speed: f32,
    pub slope_per_s: f32,
}

// From the numbers in the order of the fields, x before y.
impl From<[f32; 9]> for WindConfig {
    ghost from_gives = { λ fields config. config ≡ config_of fields };

    fn from(fields: [f32; 9]) -> WindConfig {
        let [
            ballistic_x_kgpm2,
            ballistic_y_kgpm2,
            momentum_x_per_s,
            momentum_y_per_s,
            force_noise_mps2,
            process_noise_mps_per_rt_s,
            initial_sd_mps,
            gate_sigma,
            max_axial_speed_mps,
        ] = fields;
        WindConfig {
            ballistic_kgpm2: Vec2 {
                x: ballistic_x_kgpm2,
                y: ballistic_y_kgpm2,
            },
            momentum_per_s: Vec2 {
                x: momentum_x_per_s,
                y: momentum_y_per_s,
            },
            force_noise_mps2,
            process_noise_mps_per_rt_s,
            initial_sd_mps,
            gate_sigma,
            max_axial_speed_mps,
        }
    }
}

impl WindConfig {
    // Whether any axis has a drag coefficient.
    #[tactic(auto, unfolding(crate::specs::Drag::is_on))]
    pub fn is_on(self) -> bool
        ensures { result ≡ is_on self }
    {
        self.ballistic_kgpm2.x > 0.0
            || self.ballistic_kgpm2.y > 0.0
            || self.momentum_per_s.x > 0.0
            || self.momentum_per_s.y > 0.0
    }

    // The drag's acceleration at an air velocity in the thrust frame, level.
    #[tactic(auto, unfolding(crate::specs::Drag::drag))]
    pub fn drag_mps2(self, air_mps: Vec2) -> Vec2
        ensures { result ≡ drag self air_mps }
    {
        Vec2 {
            x: self.along_x().drag_along(air_mps.x),
            y: self.along_y().drag_along(air_mps.y),
        }
    }

    // The drag along the thrust frame's x. Each axis has its function, as each component of a `Vec2` has its
    // name: one function of the axis would need a type for it, and say x and y all the same.
    pub(crate) fn along_x(self) -> AxisDrag
        ensures { result ≡ axis_drag self.ballistic_kgpm2.x self.momentum_per_s.x }
    {
        AxisDrag::new(self.ballistic_kgpm2.x, self.momentum_per_s.x)
    }

    // The drag along its y.
    pub(crate) fn along_y(self) -> AxisDrag
        ensures { result ≡ axis_drag self.ballistic_kgpm2.y self.momentum_per_s.y }
    {
        AxisDrag::new(self.ballistic_kgpm2.y, self.momentum_per_s.y)
    }
}

impl AxisDrag {
    // Half the air's density over the ballistic figure, 0 for a figure that is not positive.
    #[tactic(auto, unfolding(crate::specs::Drag::axis_drag))]
    pub fn new(ballistic: f32, momentum: f32) -> AxisDrag
        ensures { result ≡ axis_drag ballistic momentum }
    {
        AxisDrag {
            k_per_m: if ballistic > 0.0 {
                0.5 * AIR_DENSITY_KGPM3 / ballistic
            } else {
                0.0
            },
            mu_per_s: momentum,
        }
    }

    // The drag against an air velocity, where there is no air along the thrust axis.
    #[tactic(auto, unfolding(crate::specs::Drag::drag_along))]
    pub fn drag_along(self, air_mps: f32) -> f32
        ensures { result ≡ drag_along self air_mps }
    {
        -self.level_push_mps2(air_mps) * floats::compare::signum(air_mps)
    }

    // The push where there is no air along the thrust axis: the airspeed is then the size of the air
    // velocity, and no root is taken where the size's square is a plain one.
    #[tactic(auto, using(math::proofs::Laws::Length::length_along), unfolding(crate::specs::Drag::push))]
    fn level_push_mps2(self, air_mps: f32) -> f32
        ensures { result ≡ push self air_mps zero }
    {
        let size_mps = floats::compare::abs(air_mps);
        if math::has_plain_square(size_mps) {
            return (self.k_per_m * size_mps + self.mu_per_s) * size_mps;
        }
        self.push_mps2(air_mps, 0.0)
    }

    // The size of the drag's acceleration, with air along the axis and along the thrust axis: two numbers and
    // no struct, since Newton's method changes the one and keeps the other.
    #[tactic(auto, unfolding(crate::specs::Drag::push))]
    pub fn push_mps2(self, air_mps: f32, axial_mps: f32) -> f32
        ensures { result ≡ push self air_mps axial_mps }
    {
        (self.k_per_m * airspeed_mps(air_mps, axial_mps) + self.mu_per_s)
            * floats::compare::abs(air_mps)
    }

    // How the push grows with the air velocity.
    #[tactic(auto, unfolding(crate::specs::Drag::slope))]
    pub fn slope_per_s(self, air_mps: f32, axial_mps: f32) -> f32
        ensures { result ≡ slope self air_mps axial_mps }
    {
        let speed_mps = airspeed_mps(air_mps, axial_mps);
        let bluff_per_s = if speed_mps > 0.0 {
            self.k_per_m * (speed_mps + air_mps * air_mps / speed_mps)
        } else {
            0.0
        };
        bluff_per_s + self.mu_per_s
    }

    // One step of Newton's method for the speed whose push is `push`, and the slope at `speed`. Where
    // the slope is not positive, the speed stays.
    #[tactic(auto, unfolding(crate::specs::Drag::newton_step))]
    fn newton_step(self, push: f32, axial_mps: f32, speed: f32) -> Step
        ensures speed { result.speed ≡ newton_step self push axial_mps speed }
        ensures slope_per_s { result.slope_per_s ≡ slope self speed axial_mps }
    {
        let excess = self.push_mps2(speed, axial_mps) - push;
        let slope_per_s = self.slope_per_s(speed, axial_mps);
        Step {
            speed: if slope_per_s > 0.0 {
                speed - excess / slope_per_s
            } else {
                speed
            },
            slope_per_s,
        }
    }

    // Three steps, and the slope at the last speed. After a step that left the speed as it was, the
    // others would too, and are not taken, and the slope is known.
    #[tactic(auto, using(crate::proofs::Laws::Drag::stays), unfolding(crate::specs::Inner::three_steps, crate::proofs::Laws::Drag::stepped))]
    fn three_steps(self, push: f32, axial_mps: f32, speed: f32) -> Step
        ensures { result ≡ three_steps self push axial_mps speed }
    {
        let mut speed = speed;
        for _ in 0..3u32 {
            let step = self.newton_step(push, axial_mps, speed);
            if surely_same(speed, step.speed) {
                return step;
            }
            speed = step.speed;
        }
        Step {
            speed,
            slope_per_s: self.slope_per_s(speed, axial_mps),
        }
    }

    // The speed whose push is `push` where there is no air along the thrust axis.
    #[tactic(auto, unfolding(crate::specs::Drag::still_air))]
    fn still_air(self, push: f32) -> f32
        ensures { result ≡ still_air self push }
    {
        let AxisDrag {
            k_per_m: k,
            mu_per_s: mu,
        } = self;
        (floats::sqrt::sqrtf(mu * mu + 4.0 * k * push) - mu) / (2.0 * k)
    }

    // The air velocity that the drag `force_mps2` comes from, and the slope there; none where the axis has
    // no drag. Drag opposes the air velocity, so that it is against the force. The clauses say the same,
    // by the source's steps and as the code divides them.
    #[tactic(auto, using(crate::proofs::Laws::Drag::steps_as_source), unfolding(crate::specs::Inner::air_and_slope))]
    pub fn air_velocity(self, force_mps2: f32, axial_mps: f32) -> Option<AirVelocity>
        ensures of_source { result ≡ with_slope self axial_mps (air_velocity self force_mps2 axial_mps) }
        ensures in_steps { result ≡ air_and_slope self force_mps2 axial_mps }
    {
        let push = floats::compare::abs(force_mps2);
        if self.k_per_m > 0.0 {
            let first = self.newton_step(push, axial_mps, self.still_air(push));
            let fourth = self.three_steps(push, axial_mps, first.speed);
            return Some(AirVelocity {
                along_mps: against(force_mps2, fourth.speed),
                slope_per_s: fourth.slope_per_s,
            });
        }
        (self.mu_per_s > 0.0).then(|| {
            let along_mps = against(force_mps2, push / self.mu_per_s);
            AirVelocity {
                along_mps,
                slope_per_s: self.slope_per_s(along_mps, axial_mps),
            }
        })
    }
}

fn airspeed_mps(air_mps: f32, axial_mps: f32) -> f32
    ensures { result ≡ airspeed air_mps axial_mps }
{
    floats::sqrt::sqrtf(air_mps * air_mps + axial_mps * axial_mps)
}

// Whether v and w are equal and not zero, so that they are one number.
fn surely_same(v: f32, w: f32) -> bool
    ensures { result ≡ true → v ≡ w }
{
    v == w && v != 0.0
}

// A speed with the sign against a force.
#[tactic(auto, unfolding(crate::specs::Drag::against))]
fn against(force_mps2: f32, speed: f32) -> f32
    ensures { result ≡ against force_mps2 speed }
{
    if force_mps2 > 0.0 { -speed } else { speed }
}
