// The craft that a record operation takes and gives back.
ghost use Rattle.std.specs.Prelude.{◌≡◌};
ghost use Rattle.records.specs.Craft.{unconfigured};

use copter::memory::CopterGuidance;

// None before the first accepted configure, then a craft's guidance.
#[derive(Clone, Copy, Default)]
pub struct Craft {
    pub guidance: Option<CopterGuidance>,
}

impl Craft {
    #[tactic(auto, unfolding(crate::specs::Craft::unconfigured))]
    pub fn new() -> Craft
        ensures { result ≡ unconfigured }
    {
        Craft::default()
    }
}
