// What a record is answered with.
use copter::commands::{AttitudeSetpoint, BodyRateSetpoint, Flags};
use wind::estimate::WindEstimate;

// Why a record is refused. Its `u8` is document 01's number.
#[derive(Clone, Copy, PartialEq, Eq, Debug)]
pub enum Refusal {
    // A configuration's field breaks its rule: the lowest one that does.
    Field(u8),
    TimeStep,
    Heading,
    Rate,
    Kind,
    Short,
    NotConfigured,
    Mark,
    NoRoom,
}

impl From<Refusal> for u8 {
    ghost use Rattle.std.specs.Prelude.{◌≡◌};
    ghost use Rattle.records.specs.Answer.{number};

    ghost from_gives = { λ refusal result. result ≡ number refusal };

    fn from(refusal: Refusal) -> u8 {
        match refusal {
            Refusal::Field(_) => 1,
            Refusal::TimeStep => 2,
            Refusal::Heading => 3,
            Refusal::Rate => 4,
            Refusal::Kind => 5,
            Refusal::Short => 6,
            Refusal::NotConfigured => 7,
            Refusal::Mark => 8,
            Refusal::NoRoom => 9,
        }
    }
}

// Each variant is a kind of answer of document 01: a refusal and a wind that is not known are two of the
// six.
#[derive(Clone, Copy)]
pub enum Answer {
    Attitude(AttitudeSetpoint, Flags),
    BodyRate(BodyRateSetpoint, Flags),
    Refused(Refusal),
    Done,
    NoWind,
    Wind(WindEstimate),
}
