// The vehicle's state as far as guidance reads it.
ghost use Rattle.std.specs.Prelude.{◌≡◌};
ghost use Rattle.wind.specs.State.{state_of};

use math::vectors::{Quaternion, Vec3};

// Position, velocity and acceleration north, east and up; the attitude rotates the body's axes to
// north, east and down.
#[derive(Clone, Copy)]
pub struct VehicleState {
    pub position_m: Vec3,
    pub velocity_mps: Vec3,
    pub acceleration_mps2: Vec3,
    pub attitude: Quaternion,
    pub angular_velocity_z_radps: f32,
    pub heading_rad: f32,
}

// From its numbers in the order of the fields, as a record has them.
impl From<[f32; 15]> for VehicleState {
    ghost from_gives = { λ numbers state. state ≡ state_of numbers };

    fn from(numbers: [f32; 15]) -> VehicleState {
        let [
            px,
            py,
            pz,
            vx,
            vy,
            vz,
            ax,
            ay,
            az,
            w,
            i,
            j,
            k,
            turn_radps,
            heading_rad,
        ] = numbers;
        VehicleState {
            position_m: Vec3 {
                x: px,
                y: py,
                z: pz,
            },
            velocity_mps: Vec3 {
                x: vx,
                y: vy,
                z: vz,
            },
            acceleration_mps2: Vec3 {
                x: ax,
                y: ay,
                z: az,
            },
            attitude: Quaternion { w, i, j, k },
            angular_velocity_z_radps: turn_radps,
            heading_rad,
        }
    }
}
