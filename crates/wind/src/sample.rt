// What one call tells of the air: the specific force and the ground velocity along the thrust frame's
// axes, and the horizontal parts of those axes.
ghost use Rattle.std.specs.Prelude.{◌≡◌};
ghost use Rattle.wind.specs.Sample.{rotation, body_axes, along, specific_force_ned, sample_finite, sample_sum, sample_over, from_state};

use crate::state::VehicleState;
pub use math::GRAVITY;
use math::vectors::{Quaternion, Vec2, Vec3};
use std::ops::{Add, Div};

// Cosine of the most tilt that a sample is taken at, 45 degrees: the root of a half.
const MIN_TILT_COSINE: f32 = 0.70710677;

#[derive(Clone, Copy, Default)]
pub struct Sample {
    pub specific_force_mps2: Vec2,
    pub ground_along_mps: Vec2,
    pub axis_x: Vec2,
    pub axis_y: Vec2,
    pub axial_mps: f32,
}

// The body's axes, each as north, east and down: three vectors by their names, as `Vec3` is three floats.
#[derive(Clone, Copy)]
pub struct BodyAxes {
    pub x: Vec3,
    pub y: Vec3,
    pub z: Vec3,
}

// The rows of the attitude's rotation, from the body's axes to north, east and down.
#[tactic(auto, unfolding(crate::specs::Sample::rotation))]
fn rotation(q: Quaternion) -> [[f32; 3]; 3]
    ensures { result ≡ rotation q }
{
    let Quaternion { w, i, j, k } = q;
    let ww = w * w;
    let ii = i * i;
    let jj = j * j;
    let kk = k * k;
    let ij = i * j * 2.0;
    let wk = w * k * 2.0;
    let wj = w * j * 2.0;
    let ik = i * k * 2.0;
    let jk = j * k * 2.0;
    let wi = w * i * 2.0;
    [
        [ww + ii - jj - kk, ij - wk, wj + ik],
        [wk + ij, ww - ii + jj - kk, jk - wi],
        [ik - wj, wi + jk, ww - ii - jj + kk],
    ]
}

// The columns of the attitude's rotation.
#[tactic(auto, unfolding(crate::specs::Sample::body_axes))]
fn body_axes(q: Quaternion) -> BodyAxes
    ensures { result ≡ body_axes q }
{
    let rotation = rotation(q);
    let column = |at: usize| Vec3 {
        x: rotation[0][at],
        y: rotation[1][at],
        z: rotation[2][at],
    };
    BodyAxes {
        x: column(0),
        y: column(1),
        z: column(2),
    }
}

// The acceleration felt, without gravity, north, east and down.
#[tactic(auto, unfolding(crate::specs::Sample::specific_force_ned))]
fn specific_force_ned(a: Vec3) -> Vec3
    ensures { result ≡ specific_force_ned a }
{
    Vec3 {
        z: -a.z - GRAVITY,
        ..a
    }
}

impl Sample {
    // None where the craft is tilted too far or too fast along the thrust axis, or a number of the
    // sample is not finite. A NaN passes the first two tests, and fails the last.
    #[tactic(auto, unfolding(crate::specs::Sample::from_state))]
    pub fn from_state(state: VehicleState, max_axial_speed_mps: f32) -> Option<Sample>
        ensures { result ≡ from_state state max_axial_speed_mps }
    {
        let axes = body_axes(state.attitude);
        if axes.z.z < MIN_TILT_COSINE {
            return None;
        }
        let sample = Sample::along(axes, state);
        if floats::compare::abs(sample.axial_mps) > max_axial_speed_mps {
            return None;
        }
        sample.is_finite().then_some(sample)
    }

    // The sample of a craft with these body axes.
    #[tactic(auto, unfolding(crate::specs::Sample::along))]
    fn along(axes: BodyAxes, state: VehicleState) -> Sample
        ensures { result ≡ along axes state }
    {
        let velocity_ned = math::neu_to_ned(state.velocity_mps);
        let along = |v: Vec3| Vec2 {
            x: axes.x.dot(v),
            y: axes.y.dot(v),
        };
        Sample {
            specific_force_mps2: along(specific_force_ned(state.acceleration_mps2)),
            ground_along_mps: along(velocity_ned),
            axis_x: axes.x.horizontal(),
            axis_y: axes.y.horizontal(),
            axial_mps: axes.z.dot(velocity_ned),
        }
    }

    #[tactic(auto, unfolding(crate::specs::Sample::sample_finite))]
    fn is_finite(self) -> bool
        ensures { result ≡ sample_finite self }
    {
        math::all_finite(self.specific_force_mps2)
            && math::all_finite(self.ground_along_mps)
            && math::all_finite(self.axis_x)
            && math::all_finite(self.axis_y)
            && floats::compare::is_finite(self.axial_mps)
    }
}

impl Add for Sample {
    type Output = Sample;

    ghost add_gives = { λ a b r. r ≡ sample_sum a b };

    fn add(self, other: Sample) -> Sample {
        Sample {
            specific_force_mps2: self.specific_force_mps2 + other.specific_force_mps2,
            ground_along_mps: self.ground_along_mps + other.ground_along_mps,
            axis_x: self.axis_x + other.axis_x,
            axis_y: self.axis_y + other.axis_y,
            axial_mps: self.axial_mps + other.axial_mps,
        }
    }
}

impl Div<f32> for Sample {
    type Output = Sample;

    ghost div_gives = { λ sample n r. r ≡ sample_over sample n };

    fn div(self, n: f32) -> Sample {
        Sample {
            specific_force_mps2: self.specific_force_mps2 / n,
            ground_along_mps: self.ground_along_mps / n,
            axis_x: self.axis_x / n,
            axis_y: self.axis_y / n,
            axial_mps: self.axial_mps / n,
        }
    }
}
