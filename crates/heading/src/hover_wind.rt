// When the wind estimate updates, from guidance/copter/hover_wind.rs: airborne above the ground that it
// was primed on. Document 01 has no pause.
ghost use Rattle.std.specs.Prelude.{◌≡◌};
ghost use Rattle.heading.specs.HoverWind.{fresh, airborne, prime, update, estimate};

use wind::drag::WindConfig;
use wind::estimate::WindEstimate;
use wind::state::VehicleState;
use wind::window::WindEstimator;

// Wind memory: what an update and a priming carry from record to record. `ground_altitude_m` is the
// altitude of the ground as the last priming on the ground had it: none before the first one, and where
// that altitude was not finite.
#[derive(Clone, Copy, Default)]
pub struct HoverWind {
    pub estimator: WindEstimator,
    pub ground_altitude_m: Option<f32>,
}

impl HoverWind {
    #[tactic(auto, unfolding(crate::specs::HoverWind::fresh, wind::specs::Wind::fresh, wind::specs::Wind::empty))]
    pub fn new() -> HoverWind
        ensures { result ≡ fresh }
    {
        HoverWind::default()
    }

    // Feeds the state to the estimator while airborne. It is handed two parts of a call's configuration, the
    // wind's and one height, so that they are no struct.
    #[tactic(auto, unfolding(crate::specs::HoverWind::update))]
    pub fn update(
        self,
        dt: f32,
        config: WindConfig,
        airborne_height_m: f32,
        state: VehicleState,
    ) -> HoverWind
        ensures { result ≡ update self dt config airborne_height_m state }
    {
        if self.airborne(airborne_height_m, state) {
            return HoverWind {
                estimator: self.estimator.update(dt, config, state),
                ..self
            };
        }
        self
    }

    // On the ground, which is where the craft is not airborne, remembers the altitude and forgets the
    // wind; in the air, keeps both.
    #[tactic(auto, unfolding(crate::specs::HoverWind::prime, crate::specs::HoverWind::latched, floats::specs::Compare::finite_or_none))]
    pub fn prime(self, airborne_height_m: f32, state: VehicleState) -> HoverWind
        ensures { result ≡ prime self airborne_height_m state }
    {
        if self.airborne(airborne_height_m, state) {
            return self;
        }
        HoverWind {
            estimator: WindEstimator::new(),
            ground_altitude_m: floats::compare::finite(state.position_m.z),
        }
    }

    // The estimator's wind.
    pub fn estimate(self) -> Option<WindEstimate>
        ensures { result ≡ estimate self }
    {
        self.estimator.estimate()
    }

    // Whether the craft is more than `airborne_height_m` above the ground: never where none is
    // remembered, or with a NaN.
    #[tactic(auto, unfolding(crate::specs::HoverWind::airborne, crate::specs::HoverWind::above))]
    fn airborne(self, airborne_height_m: f32, state: VehicleState) -> bool
        ensures { result ≡ airborne self airborne_height_m state }
    {
        self.ground_altitude_m.is_some_and(|ground_m| state.position_m.z
            > ground_m + airborne_height_m)
    }
}
