// A record decoded and performed. Its answer is not written here.
ghost use Rattle.std.specs.Prelude.{◌≡◌, ◌+◌, false, length, Some};
ghost use Rattle.records.specs.declared.kinds.Kind.TheVariants as kinds;
ghost use Rattle.records.specs.Layout.{byte_at};
ghost use Rattle.records.specs.Kinds.{kind_of};
ghost use Rattle.records.specs.Read.{read};
ghost use Rattle.records.specs.Step.{setpoint_answer, wind_answer, perform, told, configure, with_body, judged};
ghost use Rattle.records.specs.Inner.{guidance_of, craft_of, judged_as, refused, came, in_craft, serves};

use crate::answer::{Answer, Refusal};
use crate::body::Body;
use crate::craft::Craft;
use crate::kinds::{InFlight, Kind};
use crate::read::{Input, decode, read_configuration};
use copter::commands::{Flags, Setpoint};
use copter::config::CopterGuidanceConfig;
use copter::memory::{CopterGuidance, Memory};
use wind::estimate::WindEstimate;

// The memory after an input, and its answer.
#[derive(Clone, Copy)]
pub struct Performed {
    pub memory: Memory,
    pub answer: Answer,
}

// What is kept after a record, a configured craft's memory or a craft, its answer, and the bytes taken.
#[derive(Clone, Copy)]
pub struct Turned<T> {
    pub kept: T,
    pub answer: Answer,
    pub taken: usize,
}

impl<T> Turned<T> {
    pub fn refused(kept: T, refusal: Refusal, taken: usize) -> Turned<T>
        ensures { result ≡ refused kept refusal taken }
    {
        Turned {
            kept,
            answer: Answer::Refused(refusal),
            taken,
        }
    }
}

// A call's setpoint, with its flags. Document 01 has an answer for each kind of setpoint.
#[tactic(auto, unfolding(crate::specs::Step::setpoint_answer))]
fn setpoint_answer(setpoint: Setpoint, flags: Flags) -> Answer
    ensures { result ≡ setpoint_answer setpoint flags }
{
    match setpoint {
        Setpoint::Attitude(s) => Answer::Attitude(s, flags),
        Setpoint::BodyRate(s) => Answer::BodyRate(s, flags),
    }
}

// A function, since its name says what is answered.
#[tactic(auto, unfolding(crate::specs::Step::wind_answer))]
fn wind_answer(reading: Option<WindEstimate>) -> Answer
    ensures { result ≡ wind_answer reading }
{
    reading.map_or(Answer::NoWind, Answer::Wind)
}

// An input on a configured craft, which never refuses.
#[tactic(auto, unfolding(crate::specs::Step::perform, crate::specs::Step::guided))]
fn perform(g: CopterGuidance, input: Input) -> Performed
    ensures { result ≡ perform g input }
{
    match input {
        Input::Prime(state) => {
            let primed = g.prime(state);
            Performed {
                memory: primed.memory,
                answer: Answer::Done,
            }
        }
        Input::Call(dt, state, command) => {
            let guided = g.guide(dt, state, command);
            Performed {
                memory: guided.craft.memory,
                answer: setpoint_answer(guided.setpoint, guided.flags),
            }
        }
        Input::Wind => Performed {
            memory: g.memory,
            answer: wind_answer(g.wind()),
        },
    }
}

// What the body of a kind in flight tells a configured craft.
#[tactic(auto, unfolding(crate::specs::Step::told, crate::specs::Step::craft_after, crate::specs::Step::answer_of))]
fn told(config: CopterGuidanceConfig, memory: Memory, body: &Body<'_>) -> Turned<Memory>
    ensures { in_craft config result ≡ came (craft_of config memory) (judged_as (told (Some (guidance_of config memory)) (read body.now.0 body.now.1)) (length body.now.1 + 1)) }
{
    let taken = body.bytes().len() + 1;
    match decode(body) {
        Err(refusal) => Turned::refused(memory, refusal, taken),
        Ok(input) => {
            let performed = perform(CopterGuidance { config, memory }, input);
            Turned {
                kept: performed.memory,
                answer: performed.answer,
                taken,
            }
        }
    }
}

// A record of a kind in flight on a configured craft, from the bytes after its kind. The two parts of the
// craft are apart, so that a flight keeps its one configuration in place and only the memory goes round.
#[tactic(auto, unfolding(crate::specs::Step::serve, crate::specs::Step::craft_after, crate::specs::Step::answer_of, crate::specs::Body::whole_body))]
pub fn turn(
    kind: InFlight,
    config: CopterGuidanceConfig,
    memory: Memory,
    rest: &[u8],
) -> Turned<Memory>
    ensures { in_craft config result ≡ came (craft_of config memory) (with_body (Some (kinds.InFlight kind)) (Some (guidance_of config memory)) rest.now) }
{
    let Some(body) = Body::of(kind, rest) else {
        return Turned::refused(memory, Refusal::Short, 0);
    };
    told(config, memory, &body)
}

// What a configure's body says, done.
#[tactic(auto, unfolding(crate::specs::Step::configure, crate::specs::Step::craft_after, crate::specs::Step::answer_of))]
fn configure(
    craft: Craft,
    read: Result<CopterGuidanceConfig, Refusal>,
    taken: usize,
) -> Turned<Craft>
    ensures { result ≡ came craft (judged_as (configure read) taken) }
{
    match read {
        Err(refusal) => Turned::refused(craft, refusal, taken),
        Ok(config) => Turned {
            kept: Craft {
                guidance: Some(CopterGuidance::new(config)),
            },
            answer: Answer::Done,
            taken,
        },
    }
}

// A record that `turn` does not serve: a configure, one of no known kind, and any before the first
// accepted configure.
// One function for every record was tried and slower: a flight then calls what `turn` has inlined.
#[tactic(auto, unfolding(crate::specs::Step::judged, crate::specs::Step::with_kind, crate::specs::Step::serve, crate::specs::Step::told, crate::specs::Step::craft_after, crate::specs::Step::answer_of, crate::specs::Kinds::body_length), using(crate::proofs::Steps::not_configured))]
pub fn start(craft: Craft, bytes: &[u8]) -> Turned<Craft>
    requires { serves craft.guidance (kind_of (byte_at bytes.now 0)) ≡ false }
    ensures { result ≡ came craft (judged craft.guidance bytes.now) }
{
    let Some((byte, rest)) = bytes.split_first() else {
        return Turned::refused(craft, Refusal::Short, 0);
    };
    let Ok(kind) = Kind::try_from(*byte) else {
        return Turned::refused(craft, Refusal::Kind, 0);
    };
    let needed = kind.body_length();
    let Some(body) = rest.get(..needed) else {
        return Turned::refused(craft, Refusal::Short, 0);
    };
    // A configure says something, and any other kind nothing yet: an enum of two tells them apart.
    match kind {
        Kind::Configure => configure(craft, read_configuration(body), needed + 1),
        Kind::InFlight(_) => Turned::refused(craft, Refusal::NotConfigured, needed + 1),
    }
}
