// A flight: records one after another, in as many pieces as they come in.
ghost use Rattle.std.specs.Prelude.{◌≡◌, true, false, ◌≤◌, length};
ghost use Rattle.records.specs.Flight.{ends_flight, cut_short, waits, fly, flown};
ghost use Rattle.records.specs.Inner.{Going, Served, waiting, serving, next};

use crate::answer::{Answer, Refusal};
use crate::craft::Craft;
use crate::kinds::Kind;
use crate::step::ANSWER_ROOM;
use crate::turn::{start, turn};
use crate::write::write_answer;
use copter::memory::CopterGuidance;

// The craft after some records of a flight, the bytes taken and written, and whether the flight is
// over: refusals 5 and 6 end it. The craft and the counts stand in both cases.
#[derive(Clone, Copy)]
pub struct Flown {
    pub craft: Craft,
    pub taken: usize,
    pub written: usize,
    pub ended: bool,
}

fn ends_flight(answer: Answer) -> bool
    ensures { result ≡ ends_flight answer }
{
    matches!(answer, Answer::Refused(Refusal::Kind | Refusal::Short))
}

// Whether a record has less than its whole body.
#[tactic(auto, unfolding(crate::specs::Flight::cut_short, crate::specs::Kinds::body_length))]
fn cut_short(bytes: &[u8]) -> bool
    requires { 1 ≤ length bytes.now }
    ensures { result ≡ cut_short bytes.now }
{
    Kind::try_from(bytes[0]).is_ok_and(|kind| bytes.len() - 1 < kind.body_length())
}

// Whether the next record is left for later: no byte of it is there, there is no room for its
// answer, or it is cut short and more bytes may come. `room` is what the answers have left, and no length of
// `bytes`.
#[tactic(auto, unfolding(crate::specs::Flight::waits))]
fn waits(last: bool, bytes: &[u8], room: usize) -> bool
    ensures { result ≡ waits last bytes.now room }
{
    bytes.is_empty() || room < ANSWER_ROOM || (!last && cut_short(bytes))
}

// Serves records of a configured craft, as long as they are of kinds that leave its configuration, which
// stays where it is.
#[tactic(auto, using(crate::proofs::Underway::byte_left))]
fn serve(at: Flown, bytes: &[u8], last: bool, out: &mut [u8]) -> Flown
    requires { Going bytes.now (length out.old) (flown at out.old) }
    ensures { Served bytes.now last (flown at out.old) (flown result out.new) }
{
    let Some(g) = at.craft.guidance else {
        return at;
    };
    let config = g.config;
    let mut memory = g.memory;
    let mut taken = at.taken;
    let mut written = at.written;
    let mut ended = false;
    // Each record says how long it is, so no iterator goes over them.
    while !waits(last, &bytes[taken..], out.len() - written) {
        let Ok(Kind::InFlight(in_flight)) = Kind::try_from(bytes[taken]) else {
            break;
        };
        let turned = turn(in_flight, config, memory, &bytes[taken + 1..]);
        memory = turned.kept;
        taken += turned.taken;
        written += write_answer(turned.answer, &mut out[written..]);
        if ends_flight(turned.answer) {
            ended = true;
            break;
        }
    }
    Flown {
        craft: Craft {
            guidance: Some(CopterGuidance { config, memory }),
        },
        taken,
        written,
        ended,
    }
}

// Handles one record that `serve` does not.
fn begin(at: Flown, bytes: &[u8], out: &mut [u8]) -> Flown
    requires going { Going bytes.now (length out.old) (flown at out.old) }
    requires not_waiting { waiting true bytes.now (flown at out.old) ≡ false }
    requires not_serving { serving bytes.now (flown at out.old) ≡ false }
    ensures { flown result out.new ≡ next bytes.now (flown at out.old) }
{
    let turned = start(at.craft, &bytes[at.taken..]);
    Flown {
        craft: turned.kept,
        taken: at.taken + turned.taken,
        written: at.written + write_answer(turned.answer, &mut out[at.written..]),
        ended: ends_flight(turned.answer),
    }
}

// Handles the records at the start of `bytes`, in order, and puts their answers one after another into
// `out`. With `last` nothing follows these bytes, so a record that is cut short is refused; without,
// it is left for later.
pub fn fly(before: Craft, bytes: &[u8], last: bool, out: &mut [u8]) -> Flown
    ensures { flown result out.new ≡ fly before bytes.now last out.old }
{
    let mut at = Flown {
        craft: before,
        taken: 0,
        written: 0,
        ended: false,
    };
    // Serves and begins by turns, until a record waits or one ends the flight.
    loop {
        at = serve(at, bytes, last, out);
        if at.ended || waits(last, &bytes[at.taken..], out.len() - at.written) {
            return at;
        }
        at = begin(at, bytes, out);
        if at.ended {
            return at;
        }
    }
}
