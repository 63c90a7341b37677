// The wind estimate: a Kalman filter on the wind, north and east.
ghost use Rattle.std.specs.Prelude.{◌≡◌};
ghost use Rattle.wind.specs.Estimate.{diagonal, sum, initial, predict, correct, corrected, covariance_along, sd_along};

use crate::drag::WindConfig;
use math::vectors::Vec2;
use std::ops::{Add, Mul};

// Two rows of two, in m²/s² where it is a covariance.
#[derive(Clone, Copy, PartialEq, Default)]
pub struct Matrix2 {
    pub m00: f32,
    pub m01: f32,
    pub m10: f32,
    pub m11: f32,
}

impl Matrix2 {
    // The identity times a number. Off the diagonal stands 0 times it, which is a NaN where it is
    // infinite.
    #[tactic(auto, unfolding(crate::specs::Estimate::diagonal))]
    fn diagonal(s: f32) -> Matrix2
        ensures { result ≡ diagonal s }
    {
        Matrix2 {
            m00: 1.0 * s,
            m01: 0.0 * s,
            m10: 0.0 * s,
            m11: 1.0 * s,
        }
    }
}

// A covariance times an axis.
impl Mul<Vec2> for Matrix2 {
    type Output = Vec2;

    ghost mul_gives = { λ m v r. r ≡ covariance_along m v };

    #[tactic(auto, unfolding(crate::specs::Estimate::covariance_along))]
    fn mul(self, axis: Vec2) -> Vec2 {
        Vec2 {
            x: self.m00 * axis.x + self.m01 * axis.y,
            y: self.m10 * axis.x + self.m11 * axis.y,
        }
    }
}

impl Add for Matrix2 {
    type Output = Matrix2;

    ghost add_gives = { λ a b r. r ≡ sum a b };

    fn add(self, other: Matrix2) -> Matrix2 {
        Matrix2 {
            m00: self.m00 + other.m00,
            m01: self.m01 + other.m01,
            m10: self.m10 + other.m10,
            m11: self.m11 + other.m11,
        }
    }
}

// The air's velocity, to where the wind blows, and its covariance.
#[derive(Clone, Copy, PartialEq, Default)]
pub struct WindEstimate {
    pub velocity_mps: Vec2,
    pub covariance_m2ps2: Matrix2,
}

impl WindEstimate {
    // No wind, with the configured deviation on both axes.
    #[tactic(auto, unfolding(crate::specs::Estimate::initial))]
    pub fn initial(config: WindConfig) -> WindEstimate
        ensures { result ≡ initial config }
    {
        WindEstimate {
            velocity_mps: Vec2::zeros(),
            covariance_m2ps2: Matrix2::diagonal(config.initial_sd_mps * config.initial_sd_mps),
        }
    }

    // The covariance grows with the time elapsed.
    #[tactic(auto, unfolding(crate::specs::Estimate::predict))]
    pub fn predict(self, elapsed_s: f32, config: WindConfig) -> WindEstimate
        ensures { result ≡ predict self elapsed_s config }
    {
        let q = config.process_noise_mps_per_rt_s;
        let growth = Matrix2::diagonal(q * q * elapsed_s);
        WindEstimate {
            covariance_m2ps2: self.covariance_m2ps2 + growth,
            ..self
        }
    }

    // One measurement of the wind along an axis. Outside the gate, or with an innovation that is a NaN
    // or a variance that is not finite, it changes nothing.
    #[tactic(auto, unfolding(crate::specs::Estimate::correct))]
    pub fn correct(
        self,
        axis: Vec2,
        measured_mps: f32,
        variance_m2ps2: f32,
        gate_sigma: f32,
    ) -> WindEstimate
        ensures { result ≡ correct self axis measured_mps variance_m2ps2 gate_sigma }
    {
        let along = self.covariance_m2ps2 * axis;
        let innovation_variance = axis.dot(along) + variance_m2ps2;
        let innovation = measured_mps - axis.dot(self.velocity_mps);
        let gate = gate_sigma * gate_sigma * innovation_variance;
        if innovation * innovation <= gate && floats::compare::is_finite(innovation_variance) {
            return self.corrected(along, innovation, innovation_variance);
        }
        self
    }

    // The estimate after a measurement that is taken. The covariance is made symmetric against
    // rounding.
    #[tactic(auto, unfolding(crate::specs::Estimate::corrected))]
    fn corrected(self, along: Vec2, innovation: f32, innovation_variance: f32) -> WindEstimate
        ensures { result ≡ corrected self along innovation innovation_variance }
    {
        let gain = along / innovation_variance;
        let Matrix2 { m00, m01, m10, m11 } = self.covariance_m2ps2;
        let off = 0.5 * (m01 - gain.x * along.y + (m10 - gain.y * along.x));
        WindEstimate {
            velocity_mps: self.velocity_mps + gain * innovation,
            covariance_m2ps2: Matrix2 {
                m00: m00 - gain.x * along.x,
                m01: off,
                m10: off,
                m11: m11 - gain.y * along.y,
            },
        }
    }

    // The wind's deviation along a horizontal direction of length 1, in m/s.
    #[tactic(auto, unfolding(crate::specs::Estimate::sd_along))]
    pub fn sd_along_mps(self, direction: Vec2) -> f32
        ensures { result ≡ sd_along self direction }
    {
        let Matrix2 { m00, m01, m10, m11 } = self.covariance_m2ps2;
        let x = direction.x * m00 + direction.y * m10;
        let y = direction.x * m01 + direction.y * m11;
        floats::sqrt::sqrtf(floats::minmax::max(x * direction.x + y * direction.y, 0.0))
    }
}
