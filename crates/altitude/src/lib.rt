// Altitude control, from controllers/altitude.rs: an altitude and a climb rate to a thrust.
#![tactic(auto)]

ghost use Rattle.std.specs.Prelude.{◌≡◌};
ghost use Rattle.altitude.specs.Altitude.{config_of, fresh, control, integrated, thrust};

use controllers::Gains;
use floats::compare::is_finite;
use math::GRAVITY;
use math::vectors::Quaternion;

// The gains turn metres of altitude error into m/s². The integral, in metres times seconds, grows
// only while the error is within the band, and stays within its limit. `hover_thrust` holds a level
// hover.
#[derive(Clone, Copy)]
pub struct AltitudeControllerConfig {
    pub gains: Gains,
    pub max_integral: f32,
    pub hover_thrust: f32,
    pub integration_band_m: f32,
}

// From the numbers in the order of the fields.
impl From<[f32; 6]> for AltitudeControllerConfig {
    ghost from_gives = { λ fields config. config ≡ config_of fields };

    fn from(fields: [f32; 6]) -> AltitudeControllerConfig {
        let [p, i, d, max_integral, hover_thrust, integration_band_m] = fields;
        AltitudeControllerConfig {
            gains: Gains { p, i, d },
            max_integral,
            hover_thrust,
            integration_band_m,
        }
    }
}

#[derive(Clone, Copy)]
pub struct AltitudeTarget {
    pub altitude_m: f32,
    pub velocity_mps: f32,
}

#[derive(Clone, Copy)]
pub struct AltitudeEstimate {
    pub altitude_m: f32,
    pub velocity_mps: f32,
    pub attitude: Quaternion,
}

#[derive(Clone, Copy, Default)]
pub struct AltitudeController {
    pub integrated_error: f32,
}

// The controller after a call, and the thrust that it asks for: in [0, 1], or a NaN, or the hover
// thrust as it is configured.
#[derive(Clone, Copy)]
pub struct AltitudeControl {
    pub controller: AltitudeController,
    pub thrust: f32,
}

impl AltitudeController {
    #[tactic(auto, unfolding(crate::specs::Altitude::fresh))]
    pub fn new() -> AltitudeController
        ensures { result ≡ fresh }
    {
        AltitudeController::default()
    }

    // The thrust towards `target` over `dt` seconds. Where an error is not finite, it is the hover thrust
    // and the integral stays.
    #[tactic(auto, unfolding(crate::specs::Altitude::control))]
    pub fn control(
        self,
        config: AltitudeControllerConfig,
        dt: f32,
        target: AltitudeTarget,
        estimate: AltitudeEstimate,
    ) -> AltitudeControl
        ensures { result ≡ control self config dt target estimate }
    {
        let altitude_error = target.altitude_m - estimate.altitude_m;
        let velocity_error = target.velocity_mps - estimate.velocity_mps;
        if !(is_finite(altitude_error) && is_finite(velocity_error)) {
            return AltitudeControl {
                controller: self,
                thrust: config.hover_thrust,
            };
        }
        let integral = integrated(config, dt, altitude_error, self.integrated_error);
        AltitudeControl {
            controller: AltitudeController {
                integrated_error: integral,
            },
            thrust: thrust(
                config,
                altitude_error,
                velocity_error,
                integral,
                estimate.attitude,
            ),
        }
    }
}

// The integral after a call whose errors are finite. It is clamped in every such call, so that a
// smaller limit applies outside the band too.
#[tactic(auto, unfolding(crate::specs::Altitude::integrated))]
fn integrated(
    config: AltitudeControllerConfig,
    dt: f32,
    altitude_error: f32,
    integrated_error: f32,
) -> f32
    ensures { result ≡ integrated config dt altitude_error integrated_error }
{
    let in_band = floats::compare::abs(altitude_error) < config.integration_band_m;
    let integral = if in_band {
        integrated_error + altitude_error * dt
    } else {
        integrated_error
    };
    math::clamp_symmetric(integral, config.max_integral)
}

// The thrust for the acceleration that the gains ask for, boosted for the tilt.
#[tactic(auto, unfolding(crate::specs::Altitude::thrust))]
fn thrust(
    config: AltitudeControllerConfig,
    altitude_error: f32,
    velocity_error: f32,
    integrated_error: f32,
    attitude: Quaternion,
) -> f32
    ensures { result ≡ thrust config altitude_error velocity_error integrated_error attitude }
{
    let acceleration = config.gains.p * altitude_error
        + config.gains.d * velocity_error
        + config.gains.i * integrated_error;
    let linear_thrust = config.hover_thrust * (GRAVITY + acceleration) / GRAVITY
        * math::tilt_boost(attitude);
    floats::minmax::clamp(linear_thrust, 0.0, 1.0)
}
