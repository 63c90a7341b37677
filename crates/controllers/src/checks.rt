// The rules for a configuration's numbers, from controllers/mod.rs.
ghost use Rattle.std.specs.Prelude.{◌≡◌};
ghost use Rattle.controllers.specs.Checks.{check_limit, above, check_positive, check_unit_interval, check_tilt};

// Non-negative and finite. -0.0 is.
#[tactic(auto, unfolding(crate::specs::Checks::check_limit))]
pub fn check_limit(value: f32) -> bool
    ensures { result ≡ check_limit value }
{
    value >= 0.0 && floats::compare::is_finite(value)
}

// Above a number, and finite.
#[tactic(auto, unfolding(crate::specs::Checks::above))]
pub fn above(least: f32, value: f32) -> bool
    ensures { result ≡ above least value }
{
    value > least && floats::compare::is_finite(value)
}

// Positive and finite.
#[tactic(auto, unfolding(crate::specs::Checks::check_positive))]
pub fn check_positive(value: f32) -> bool
    ensures { result ≡ check_positive value }
{
    above(0.0, value)
}

// In (0, 1].
#[tactic(auto, unfolding(crate::specs::Checks::check_unit_interval))]
pub fn check_unit_interval(value: f32) -> bool
    ensures { result ≡ check_unit_interval value }
{
    value > 0.0 && value <= 1.0
}

// In (0, π/2) rad.
#[tactic(auto, unfolding(crate::specs::Checks::check_tilt))]
pub fn check_tilt(value: f32) -> bool
    ensures { result ≡ check_tilt value }
{
    value > 0.0 && value < math::FRAC_PI_2
}
