// Paces a slow loop from a faster call, from rate_divider.rs.
ghost use Rattle.std.specs.Prelude.{◌≡◌};
ghost use Rattle.controllers.specs.RateDivider.{due, ran, reset};

// Paces a loop by the seconds since it last ran: none before its first run and after a reset.
#[derive(Clone, Copy, Default)]
pub struct RateDivider {
    pub elapsed_s: Option<f32>,
}

// The divider after a call, and the time that the loop steps over, if it is due.
#[derive(Clone, Copy)]
pub struct Paced {
    pub divider: RateDivider,
    pub due: Option<f32>,
}

impl RateDivider {
    // Advances by `dt` seconds for a loop that runs every `period` seconds. A loop that is due and
    // does not run is due again at the next call, if that call's `dt` is no shorter.
    #[tactic(auto, unfolding(crate::specs::RateDivider::due_since))]
    pub fn due(self, dt: f32, period: f32) -> Paced
        ensures { result ≡ due self dt period }
    {
        let Some(before) = self.elapsed_s else {
            return Paced {
                divider: self,
                due: Some(dt),
            };
        };
        let elapsed = before + dt;
        Paced {
            divider: RateDivider {
                elapsed_s: Some(elapsed),
            },
            due: (elapsed >= period - 0.5 * dt).then_some(elapsed),
        }
    }

    // The loop ran in this call.
    pub fn ran() -> RateDivider
        ensures { result ≡ ran }
    {
        RateDivider {
            elapsed_s: Some(0.0),
        }
    }

    // Forgets the last run, so that the loop is due at the next call.
    pub fn reset() -> RateDivider
        ensures { result ≡ reset }
    {
        RateDivider::default()
    }
}
