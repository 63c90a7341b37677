// The kinds of records, and how many bytes follow the byte of kind.
ghost use Rattle.std.specs.Prelude.{◌≡◌, Some};
ghost use Rattle.records.specs.Layout.{size};
ghost use Rattle.records.specs.Kinds.{command_layout, in_flight_layout, body_length, kind_of};

use copter::config::FIELDS;

// The calls, which fly the craft.
#[derive(Clone, Copy, PartialEq, Eq, Debug)]
pub enum Call {
    Attitude,
    Waypoint,
    AbsoluteAttitude,
    Land,
    AbsoluteRate,
}

// The kinds that need a configured craft, and leave its configuration.
#[derive(Clone, Copy, PartialEq, Eq, Debug)]
pub enum InFlight {
    Prime,
    Call(Call),
    Rate,
    Wind,
}

// What a byte of kind says; both variants are kinds.
#[derive(Clone, Copy, PartialEq, Eq, Debug)]
pub enum Kind {
    Configure,
    InFlight(InFlight),
}

// A byte that names no kind.
#[derive(Clone, Copy, PartialEq, Eq, Debug)]
pub struct UnknownKind;

// The bytes of a float, of a state, and of T and a state, which stand before a call's command.
pub const NUMBER: usize = 4;

pub const STATE: usize = 15 * NUMBER;

pub const COMMAND_START: usize = NUMBER + STATE;

impl TryFrom<u8> for Kind {
    ghost use Rattle.std.specs.Prelude.{◌≡◌, None, Some};
    ghost use Rattle.std.specs.Result.{MatchResult};
    ghost use Rattle.records.specs.Kinds.{kind_of};

    type Error = UnknownKind;

    ghost try_from_gives = { λ byte r. MatchResult r (λ kind. kind_of byte ≡ Some kind) (λ _. kind_of byte ≡ None) };

    #[tactic(auto, unfolding(crate::specs::Kinds::kind_of))]
    fn try_from(byte: u8) -> Result<Kind, UnknownKind> {
        Ok(match byte {
            1 => Kind::Configure,
            2 => Kind::InFlight(InFlight::Prime),
            3 => Kind::InFlight(InFlight::Call(Call::Attitude)),
            4 => Kind::InFlight(InFlight::Rate),
            5 => Kind::InFlight(InFlight::Call(Call::Waypoint)),
            6 => Kind::InFlight(InFlight::Call(Call::AbsoluteAttitude)),
            7 => Kind::InFlight(InFlight::Call(Call::Land)),
            8 => Kind::InFlight(InFlight::Call(Call::AbsoluteRate)),
            9 => Kind::InFlight(InFlight::Wind),
            _ => return Err(UnknownKind),
        })
    }
}

fn command_length(call: Call) -> usize
    ensures { result ≡ size (command_layout call) }
{
    match call {
        Call::Attitude => 4 * NUMBER,
        Call::Waypoint => 7 * NUMBER + 2,
        Call::AbsoluteAttitude => 4 * NUMBER,
        Call::Land => 2 * NUMBER,
        Call::AbsoluteRate => 4 * NUMBER,
    }
}

fn in_flight_length(kind: InFlight) -> usize
    ensures { result ≡ size (in_flight_layout kind) }
{
    match kind {
        InFlight::Prime => STATE,
        InFlight::Call(call) => COMMAND_START + command_length(call),
        InFlight::Rate => 0,
        InFlight::Wind => 0,
    }
}

impl Kind {
    // How many bytes follow the kind.
    #[tactic(auto, unfolding(crate::specs::Kinds::body_length))]
    pub fn body_length(self) -> usize
        ensures { result ≡ body_length (Some self) }
    {
        match self {
            Kind::Configure => FIELDS * NUMBER,
            Kind::InFlight(in_flight) => in_flight_length(in_flight),
        }
    }
}

// What a byte of kind says; none for a byte that names no kind. Public before `TryFrom` said the same.
pub fn kind_of(byte: u8) -> Option<Kind>
    ensures { result ≡ kind_of byte }
{
    Kind::try_from(byte).ok()
}

// How many bytes follow: no byte where no kind is named. Public before `Kind`'s method said the same.
#[tactic(auto, unfolding(crate::specs::Kinds::body_length))]
pub fn body_length(kind: Option<Kind>) -> usize
    ensures { result ≡ body_length kind }
{
    kind.map_or(0, Kind::body_length)
}
