// One record, from its bytes to its answer.
ghost use Rattle.std.specs.Prelude.{◌≡◌};
ghost use Rattle.records.specs.Step.{judged, step, reported};
ghost use Rattle.records.specs.Inner.{came};

use crate::answer::{Answer, Refusal};
use crate::craft::Craft;
use crate::kinds::Kind;
use crate::turn::{Turned, start, turn};
use crate::write::write_answer;
use copter::memory::CopterGuidance;

// What an answer may need.
pub const ANSWER_ROOM: usize = 25;

// The craft after a record, its answer, and the bytes taken and written.
#[derive(Clone, Copy)]
pub struct Handled {
    pub craft: Craft,
    pub answer: Answer,
    pub taken: usize,
    pub written: usize,
}

// What a record comes to. It is split here as in a flight's `serve`, which keeps the configuration in place
// over many records.
#[tactic(auto, unfolding(crate::specs::Step::judged, crate::specs::Step::craft_after, crate::specs::Step::answer_of))]
fn handle(craft: Craft, bytes: &[u8]) -> Turned<Craft>
    ensures { result ≡ came craft (judged craft.guidance bytes.now) }
{
    if let Some(g) = craft.guidance
        && let Some((byte, rest)) = bytes.split_first()
        && let Ok(Kind::InFlight(in_flight)) = Kind::try_from(*byte)
    {
        let turned = turn(in_flight, g.config, g.memory, rest);
        return Turned {
            kept: Craft {
                guidance: Some(CopterGuidance {
                    config: g.config,
                    memory: turned.kept,
                }),
            },
            answer: turned.answer,
            taken: turned.taken,
        };
    }
    start(craft, bytes)
}

// Handles one record: the bytes from its kind on, and the buffer that its answer is lent.
#[tactic(auto, using(crate::proofs::Steps::written_step, crate::proofs::Steps::no_room))]
pub fn record(craft: Craft, bytes: &[u8], out: &mut [u8]) -> Handled
    ensures { reported result out.new ≡ step craft bytes.now out.old }
{
    if out.len() < ANSWER_ROOM {
        return Handled {
            craft,
            answer: Answer::Refused(Refusal::NoRoom),
            taken: 0,
            written: 0,
        };
    }
    let turned = handle(craft, bytes);
    Handled {
        craft: turned.kept,
        answer: turned.answer,
        taken: turned.taken,
        written: write_answer(turned.answer, out),
    }
}
