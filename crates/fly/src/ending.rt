// Why a flight ended before its input did.
ghost use Rattle.std.specs.Prelude.{◌≡◌};
ghost use Rattle.fly.specs.Flight.{ending};

use records::kinds::Kind;
use std::fmt;

// The record that ended the flight: the byte of the input that it begins at, from 0, its byte of kind, and how many
// bytes came after that.
#[derive(Clone, Copy)]
pub struct Ending {
    pub at: u64,
    pub kind: u8,
    pub came: usize,
}

impl Ending {
    // From the bytes that begin with the record; none where there is no byte.
    pub fn of(at: u64, rest: &[u8]) -> Option<Self>
        ensures { result ≡ ending at rest.now }
    {
        let (kind, body) = rest.split_first()?;
        Some(Ending {
            at,
            kind: *kind,
            came: body.len(),
        })
    }
}

impl fmt::Display for Ending {
    fn fmt<W: fmt::Write>(&self, f: &mut fmt::Formatter<W>) -> fmt::Result {
        let Ending { at, kind, came } = *self;
        match Kind::try_from(kind) {
            Err(_) => write!(
                f,
                "refusal 5 ends the flight at byte {at}: {kind} is no kind of record"
            ),
            Ok(known) => write!(
                f,
                "refusal 6 ends the flight at byte {at}: {} bytes follow kind {kind}, of which {came} came",
                known.body_length()
            ),
        }
    }
}
