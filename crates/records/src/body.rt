// The body of a record in flight.
ghost use Rattle.std.specs.Prelude.{◌≡◌};
ghost use Rattle.records.specs.Body.{Whole, whole_body};

use crate::kinds::{InFlight, Kind};
use std::marker::Model;

// A kind, and as many bytes as it has. Clauses see the two.
#[derive(Drop)]
pub struct Body<'a> {
    kind: InFlight,
    bytes: &'a [u8],
}

impl<'a> Model for Body<'a> {
    ghost use Rattle.std.specs.Prelude.{ℕ, List};
    ghost use Rattle.std.specs.Coded.{coded×, coded_ℕ, coded_list};
    ghost use Rattle.records.specs.declared.kinds.InFlight.{InFlight as SpecKind};
    ghost use Rattle.records.specs.Body.{coded_in_flight, Whole};

    ghost Value = { SpecKind × List ℕ };

    ghost coded = { coded× coded_in_flight (coded_list coded_ℕ) };

    ghost view = { λ b. (b.kind, b.bytes.now) };

    ghost invariant = { λ b. Whole b.kind b.bytes.now };
}

impl<'a> Body<'a> {
    // The body that `rest` starts with; none where it is cut short.
    #[tactic(auto, unfolding(crate::specs::Body::whole_body, crate::specs::Kinds::body_length))]
    pub fn of(kind: InFlight, rest: &'a [u8]) -> Option<Body<'a>>
        ensures { result ≡ whole_body kind rest.now }
    {
        let bytes = rest.get(..Kind::InFlight(kind).body_length())?;
        Some(Body { kind, bytes })
    }

    pub fn kind(&self) -> InFlight
        ensures { result ≡ self.now.0 }
    {
        self.kind
    }

    pub fn bytes(&self) -> &[u8]
        ensures bytes { result.now ≡ self.now.1 }
        ensures whole { Whole self.now.0 self.now.1 }
    {
        self.bytes
    }
}
