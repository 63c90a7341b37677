// When the wind estimate updates, and where waypoint and land flight turn the heading: as commanded,
// along the leg, with a wingtip into the wind, or with the craft where it cannot turn.
#![tactic(auto)]

pub mod hover_wind;
pub mod leg_heading;
pub mod wind_heading;

ghost use Rattle.std.specs.Prelude.{◌≡◌};
ghost use Rattle.heading.specs.Config.{config_of};

// The fields 26 to 35 of document 01.
#[derive(Clone, Copy)]
pub struct HeadingConfig {
    pub waypoint_yaw_radps: f32,
    pub heading_rate_radps: f32,
    pub waypoint_yaw_min_leg_m: f32,
    pub heading_yield_rad: f32,
    pub heading_yield_rate_radps: f32,
    pub heading_yield_s: f32,
    pub wind_heading_min_mps: f32,
    pub wind_heading_from_wind_rad: f32,
    pub wind_heading_max_sd_rad: f32,
    pub wind_heading_deadband_rad: f32,
}

// From the numbers in the order of the fields.
impl From<[f32; 10]> for HeadingConfig {
    ghost from_gives = { λ fields config. config ≡ config_of fields };

    fn from(fields: [f32; 10]) -> HeadingConfig {
        let [
            waypoint_yaw_radps,
            heading_rate_radps,
            waypoint_yaw_min_leg_m,
            heading_yield_rad,
            heading_yield_rate_radps,
            heading_yield_s,
            wind_heading_min_mps,
            wind_heading_from_wind_rad,
            wind_heading_max_sd_rad,
            wind_heading_deadband_rad,
        ] = fields;
        HeadingConfig {
            waypoint_yaw_radps,
            heading_rate_radps,
            waypoint_yaw_min_leg_m,
            heading_yield_rad,
            heading_yield_rate_radps,
            heading_yield_s,
            wind_heading_min_mps,
            wind_heading_from_wind_rad,
            wind_heading_max_sd_rad,
            wind_heading_deadband_rad,
        }
    }
}
