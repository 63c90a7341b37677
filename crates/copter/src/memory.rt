// What guidance remembers from call to call.
ghost use Rattle.std.specs.Prelude.{◌≡◌};
ghost use Rattle.copter.specs.Memory.{fresh_vertical, fresh_lateral, fresh, reset_lateral};

use crate::config::CopterGuidanceConfig;
use altitude::AltitudeController;
use controllers::rate_divider::RateDivider;
use heading::hover_wind::HoverWind;
use heading::leg_heading::LegHeading;
use lateral::LateralController;
use math::vectors::Vec2;

// The vertical loop: its controller, the altitude target, none or a finite height in metres, and how fast
// the target last descended.
#[derive(Clone, Copy, Default)]
pub struct VerticalMemory {
    pub controller: AltitudeController,
    pub target: Option<f32>,
    pub descent_speed_mps: f32,
}

// The lateral loop: its controller, its pacing, the stored tilt with whether it was capped, and the
// acceleration requested before the cap. The tilt and the request stand in both cases: the memory that is
// compared with the Rust's has the request whether the tilt was capped or not.
#[derive(Clone, Copy, Default)]
pub struct LateralMemory {
    pub controller: LateralController,
    pub rate: RateDivider,
    pub tilt_rad: Vec2,
    pub tilt_capped: bool,
    pub requested_accel_mps2: Vec2,
}

#[derive(Clone, Copy, Default)]
pub struct Memory {
    pub vertical: VerticalMemory,
    pub lateral: LateralMemory,
    pub heading_rad: f32,
    pub leg_heading: LegHeading,
    pub wind: HoverWind,
}

// A craft: its configuration and its memory.
#[derive(Clone, Copy)]
pub struct CopterGuidance {
    pub config: CopterGuidanceConfig,
    pub memory: Memory,
}

impl VerticalMemory {
    // Nothing here calls it: it was public before `Default` said the same.
    #[tactic(auto, unfolding(crate::specs::Memory::fresh_vertical, altitude::specs::Altitude::fresh))]
    pub fn new() -> VerticalMemory
        ensures { result ≡ fresh_vertical }
    {
        VerticalMemory::default()
    }
}

impl LateralMemory {
    #[tactic(auto, unfolding(crate::specs::Memory::fresh_lateral, lateral::specs::Lateral::fresh))]
    pub fn new() -> LateralMemory
        ensures { result ≡ fresh_lateral }
    {
        LateralMemory::default()
    }

    // All but the stored tilt and whether it was capped.
    #[tactic(auto, unfolding(crate::specs::Memory::reset_lateral, crate::specs::Memory::fresh_lateral))]
    pub fn reset(self) -> LateralMemory
        ensures { result ≡ reset_lateral self }
    {
        LateralMemory {
            tilt_rad: self.tilt_rad,
            tilt_capped: self.tilt_capped,
            ..LateralMemory::new()
        }
    }
}

impl Memory {
    #[tactic(auto, unfolding(crate::specs::Memory::fresh, crate::specs::Memory::fresh_vertical, crate::specs::Memory::fresh_lateral, altitude::specs::Altitude::fresh, lateral::specs::Lateral::fresh, heading::specs::LegHeading::fresh, heading::specs::WindHeading::fresh, heading::specs::HoverWind::fresh, wind::specs::Wind::fresh, wind::specs::Wind::empty))]
    pub fn new() -> Memory
        ensures { result ≡ fresh }
    {
        Memory::default()
    }
}
