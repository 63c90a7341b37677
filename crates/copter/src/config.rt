// The configuration: its fields in document 01's order, the rule and the default of each. Document 01's
// fields are numbers, and 0 where a term is off, so none is an `Option`.
ghost use Rattle.std.specs.Prelude.{◌≡◌, ◌+◌, ◌≤◌, take, drop};
ghost use Rattle.copter.specs.Config.{keeps, field_count, lowest_broken, guidance_of, thrust_of, config_of, default_config};

use altitude::AltitudeControllerConfig;
use controllers::checks::{above, check_limit, check_positive, check_tilt, check_unit_interval};
use heading::HeadingConfig;
use lateral::LateralControllerConfig;
use math::vectors::Vec2;
use wind::drag::WindConfig;

// Fields 38 to 41: a floor, a sink guard and a ceiling on the tilt boost.
#[derive(Clone, Copy)]
pub struct ThrustLimits {
    pub min_thrust: f32,
    pub sink_limit_mps: f32,
    pub sink_gain: f32,
    pub max_boost_thrust: f32,
}

// Fields 15 to 37, in the order of the source's `validate`.
#[derive(Clone, Copy)]
pub struct GuidanceConfig {
    pub navigation_period_s: f32,
    pub max_stick_angles_rad: Vec2,
    pub stick_yaw_rate_radps: f32,
    pub idle_throttle: f32,
    pub max_tilt_rad: f32,
    pub max_descent_mps: f32,
    pub descent_accel_mps2: f32,
    pub climb_decel_mps2: f32,
    pub altitude_leash_m: f32,
    pub land_speed_mps: f32,
    pub heading: HeadingConfig,
    pub airborne_height_m: f32,
    pub feedforward_hold_band_mps: f32,
}

// Fields 1 to 6, 7 to 14, 15 to 37, 38 to 41 and 42 to 50.
#[derive(Clone, Copy)]
pub struct CopterGuidanceConfig {
    pub altitude: AltitudeControllerConfig,
    pub lateral: LateralControllerConfig,
    pub guidance: GuidanceConfig,
    pub thrust: ThrustLimits,
    pub wind: WindConfig,
}

// What a field takes.
#[derive(Clone, Copy, PartialEq, Eq, Debug)]
pub enum Rule {
    Anything,
    // Non-negative and finite.
    Limit,
    // Positive and finite.
    Positive,
    // In (0, 1].
    UnitInterval,
    // In (0, π/2).
    Tilt,
    // In [0, 1).
    BelowOne,
    // Above the touchdown detector's 0.2 m/s, and finite.
    AboveDescending,
    // In [0, π].
    UpToPi,
}

// How many fields a configuration has. Field n stands at n - 1 in a list of them.
pub const FIELDS: usize = 50;

// What a field takes, and its default in the Rust. Names for the two would be said again in 50 rows.
#[derive(Clone, Copy)]
struct Field(Rule, f32);

const FIELD_TABLE: [Field; FIELDS] = [
    Field(Rule::Limit, 1.5), // 1 altitude gains p
    Field(Rule::Limit, 0.2), // 2 altitude gains i
    Field(Rule::Limit, 2.0), // 3 altitude gains d
    Field(Rule::Limit, 5.0), // 4 altitude max_integral
    Field(Rule::UnitInterval, 0.5), // 5 hover_thrust
    Field(Rule::Limit, 1.0), // 6 integration_band_m
    Field(Rule::Limit, 0.5), // 7 position_p
    Field(Rule::Anything, 1.26), // 8 velocity gains p
    Field(Rule::Anything, 0.4), // 9 velocity gains i
    Field(Rule::Anything, 0.0), // 10 velocity gains d
    Field(Rule::Limit, 12.5), // 11 lateral max_integral
    Field(Rule::Limit, 0.0), // 12 max_accel_mps2
    Field(Rule::Limit, 0.0), // 13 brake_mps2
    Field(Rule::UnitInterval, 0.7), // 14 braking_share
    Field(Rule::Limit, 0.02), // 15 navigation_period_s
    Field(Rule::Limit, 0.7853982), // 16 max_stick_angles_rad x
    Field(Rule::Limit, 0.7853982), // 17 max_stick_angles_rad y
    Field(Rule::Limit, 1.0), // 18 stick_yaw_rate_radps
    Field(Rule::BelowOne, 0.05), // 19 idle_throttle
    Field(Rule::Tilt, 0.47123888), // 20 max_tilt_rad
    Field(Rule::Positive, 3.0), // 21 max_descent_mps
    Field(Rule::Positive, 1.0), // 22 descent_accel_mps2
    Field(Rule::Positive, 2.5), // 23 climb_decel_mps2
    Field(Rule::Positive, 1.0), // 24 altitude_leash_m
    Field(Rule::AboveDescending, 0.7), // 25 land_speed_mps
    Field(Rule::Limit, 1.0471976), // 26 waypoint_yaw_radps
    Field(Rule::Positive, 1.0471976), // 27 heading_rate_radps
    Field(Rule::Limit, 3.0), // 28 waypoint_yaw_min_leg_m
    Field(Rule::Limit, 0.5235988), // 29 heading_yield_rad
    Field(Rule::Limit, 0.1), // 30 heading_yield_rate_radps
    Field(Rule::Limit, 1.0), // 31 heading_yield_s
    Field(Rule::Limit, 0.0), // 32 wind_heading_min_mps
    Field(Rule::UpToPi, 1.3962634), // 33 wind_heading_from_wind_rad
    Field(Rule::Limit, 0.2617994), // 34 wind_heading_max_sd_rad
    Field(Rule::Limit, 0.17453292), // 35 wind_heading_deadband_rad
    Field(Rule::Limit, 1.0), // 36 airborne_height_m
    Field(Rule::Limit, 0.3), // 37 feedforward_hold_band_mps
    Field(Rule::BelowOne, 0.0), // 38 min_thrust
    Field(Rule::Limit, 0.0), // 39 sink_limit_mps
    Field(Rule::Limit, 0.0), // 40 sink_gain
    Field(Rule::UnitInterval, 1.0), // 41 max_boost_thrust
    Field(Rule::Limit, 0.0), // 42 ballistic_kgpm2 x
    Field(Rule::Limit, 0.0), // 43 ballistic_kgpm2 y
    Field(Rule::Limit, 0.0), // 44 momentum_per_s x
    Field(Rule::Limit, 0.0), // 45 momentum_per_s y
    Field(Rule::Limit, 0.5), // 46 force_noise_mps2
    Field(Rule::Limit, 0.1), // 47 process_noise_mps_per_rt_s
    Field(Rule::Limit, 10.0), // 48 initial_sd_mps
    Field(Rule::Limit, 5.0), // 49 gate_sigma
    Field(Rule::Limit, 1.0), // 50 max_axial_speed_mps
];

// The touchdown detector's speed, in m/s: a land speed is above it.
const DESCENDING_MPS: f32 = 0.2;

// The rules are data, which the table and the definitions name, so they are matched and not called.
#[tactic(auto, unfolding(crate::specs::Config::keeps))]
fn keeps(rule: Rule, value: f32) -> bool
    ensures { result ≡ keeps rule value }
{
    match rule {
        Rule::Anything => true,
        Rule::Limit => check_limit(value),
        Rule::Positive => check_positive(value),
        Rule::UnitInterval => check_unit_interval(value),
        Rule::Tilt => check_tilt(value),
        Rule::BelowOne => value >= 0.0 && value < 1.0,
        Rule::AboveDescending => above(DESCENDING_MPS, value),
        Rule::UpToPi => value >= 0.0 && value <= math::PI,
    }
}

// The number of the lowest field that breaks its rule, if one does.
pub fn lowest_broken(fields: &[f32; FIELDS]) -> Option<u8>
    ensures { result ≡ lowest_broken fields.now }
{
    FIELD_TABLE
        .iter()
        .zip(fields.iter())
        .position(|(Field(rule, _), value)| !keeps(*rule, *value))
        .map(|at| at as u8 + 1)
}

// N fields from a place on, which stand together in a part of the configuration. control_c has the same for
// C's arrays; an exported one would ask its caller for the bounds.
fn part<const N: usize>(fields: &[f32; FIELDS], from: usize) -> [f32; N]
    requires { from + N ≤ field_count }
    ensures { result ≡ take N (drop from fields.now) }
{
    let mut part = [0.0; N];
    part.copy_from_slice(&fields[from..from + N]);
    part
}

// Its own fields stand on both sides of the heading's, so it reads them by number. Here and below `ensures`
// says again what `from_gives` or `is_default` says, for who reads the function.
impl From<&[f32; FIELDS]> for GuidanceConfig {
    ghost from_gives = { λ fields config. config ≡ guidance_of fields.now };

    #[tactic(auto, using(crate::proofs::Laws::Parts::heading_part))]
    fn from(fields: &[f32; FIELDS]) -> GuidanceConfig
        ensures { result ≡ guidance_of fields.now }
    {
        GuidanceConfig {
            navigation_period_s: fields[14],
            max_stick_angles_rad: Vec2 {
                x: fields[15],
                y: fields[16],
            },
            stick_yaw_rate_radps: fields[17],
            idle_throttle: fields[18],
            max_tilt_rad: fields[19],
            max_descent_mps: fields[20],
            descent_accel_mps2: fields[21],
            climb_decel_mps2: fields[22],
            altitude_leash_m: fields[23],
            land_speed_mps: fields[24],
            heading: HeadingConfig::from(part::<10>(fields, 25)),
            airborne_height_m: fields[35],
            feedforward_hold_band_mps: fields[36],
        }
    }
}

// From all fields, by number: this conversion is public, and one from the four alone would stand beside it.
impl From<&[f32; FIELDS]> for ThrustLimits {
    ghost from_gives = { λ fields limits. limits ≡ thrust_of fields.now };

    fn from(fields: &[f32; FIELDS]) -> ThrustLimits
        ensures { result ≡ thrust_of fields.now }
    {
        ThrustLimits {
            min_thrust: fields[37],
            sink_limit_mps: fields[38],
            sink_gain: fields[39],
            max_boost_thrust: fields[40],
        }
    }
}

impl From<&[f32; FIELDS]> for CopterGuidanceConfig {
    ghost from_gives = { λ fields config. config ≡ config_of fields.now };

    #[tactic(auto, using(crate::proofs::Laws::Parts::altitude_part, crate::proofs::Laws::Parts::lateral_part, crate::proofs::Laws::Parts::wind_part), unfolding(crate::specs::Config::config_of))]
    fn from(fields: &[f32; FIELDS]) -> CopterGuidanceConfig
        ensures { result ≡ config_of fields.now }
    {
        CopterGuidanceConfig {
            altitude: AltitudeControllerConfig::from(part::<6>(fields, 0)),
            lateral: LateralControllerConfig::from(part::<8>(fields, 6)),
            guidance: GuidanceConfig::from(fields),
            thrust: ThrustLimits::from(fields),
            wind: WindConfig::from(part::<9>(fields, 41)),
        }
    }
}

// By hand, since its numbers are the table's and no zeros.
impl Default for CopterGuidanceConfig {
    ghost is_default = { λ config. config ≡ default_config };

    #[tactic(auto, unfolding(crate::specs::Config::default_config))]
    fn default() -> CopterGuidanceConfig
        ensures { result ≡ default_config }
    {
        CopterGuidanceConfig::from(&FIELD_TABLE.map(|Field(_, default)| default))
    }
}
