// Writes an answer to the start of a lent buffer.
ghost use Rattle.std.specs.Prelude.{◌≡◌, ◌++◌, ◌≤◌, length, drop};
ghost use Rattle.records.specs.Answer.{flag_bits, setpoint_bytes, field_of, answer_bytes};
ghost use Rattle.records.specs.Step.{answer_room};
ghost use Rattle.records.specs.declared.answer.Answer.TheVariants as answers;

use crate::answer::{Answer, Refusal};
use crate::step::ANSWER_ROOM;
use copter::commands::Flags;
use floats::bits::to_le_bytes;
use wind::estimate::WindEstimate;

// Document 01's number of each answer, its first byte.
#[derive(Clone, Copy)]
enum AnswerKind {
    Attitude = 1,
    BodyRate = 2,
    Refused = 3,
    Done = 4,
    NoWind = 5,
    Wind = 6,
}

// Bit 0 tilt saturated, bit 1 thrust saturated, bit 2 idle. A function, since `Flags` is copter's.
fn flag_bits(flags: Flags) -> u8
    ensures { result ≡ flag_bits flags }
{
    u8::from(flags.tilt) + 2 * u8::from(flags.thrust) + 4 * u8::from(flags.idle)
}

// A kind, four floats and the flags. Each is written at document 01's place by its name: a list of floats
// would lose the names. The kind comes as its byte, which the definition says.
#[tactic(auto, unfolding(crate::specs::Answer::setpoint_bytes))]
fn setpoint_bytes(kind: u8, w: f32, x: f32, y: f32, z: f32, flags: Flags) -> [u8; 18]
    ensures { result ≡ setpoint_bytes kind w x y z flags }
{
    let mut bytes = [0; 18];
    bytes[0] = kind;
    bytes[1..5].copy_from_slice(&to_le_bytes(w));
    bytes[5..9].copy_from_slice(&to_le_bytes(x));
    bytes[9..13].copy_from_slice(&to_le_bytes(y));
    bytes[13..17].copy_from_slice(&to_le_bytes(z));
    bytes[17] = flag_bits(flags);
    bytes
}

// A kind and six floats, in their places likewise.
#[tactic(auto, unfolding(crate::specs::Answer::answer_bytes))]
fn wind_bytes(w: WindEstimate) -> [u8; ANSWER_ROOM]
    ensures { result ≡ answer_bytes (answers.Wind w) }
{
    let v = w.velocity_mps;
    let c = w.covariance_m2ps2;
    let mut bytes = [0; ANSWER_ROOM];
    bytes[0] = AnswerKind::Wind as u8;
    bytes[1..5].copy_from_slice(&to_le_bytes(v.x));
    bytes[5..9].copy_from_slice(&to_le_bytes(v.y));
    bytes[9..13].copy_from_slice(&to_le_bytes(c.m00));
    bytes[13..17].copy_from_slice(&to_le_bytes(c.m01));
    bytes[17..21].copy_from_slice(&to_le_bytes(c.m10));
    bytes[21..25].copy_from_slice(&to_le_bytes(c.m11));
    bytes
}

// The field of refusal 1, and 0 in every other.
pub fn refusal_field(refusal: Refusal) -> u8
    ensures { result ≡ field_of refusal }
{
    match refusal {
        Refusal::Field(field) => field,
        _ => 0,
    }
}

// Copies bytes to the start of a buffer and gives their number.
fn put(source: &[u8], out: &mut [u8]) -> usize
    requires { length source.now ≤ length out.old }
    ensures value { result ≡ length source.now }
    ensures out_after { out.new ≡ source.now ++ drop result out.old }
{
    let size = source.len();
    out[..size].copy_from_slice(source);
    size
}

// Writes an answer and gives its length. The refusal that there is no room has no bytes. Each variant
// brings fields of its own, so a match picks them.
#[tactic(auto, unfolding(crate::specs::Answer::answer_bytes, crate::specs::Answer::refusal_bytes))]
pub fn write_answer(answer: Answer, out: &mut [u8]) -> usize
    requires { answer_room ≤ length out.old }
    ensures value { result ≡ length (answer_bytes answer) }
    ensures out_after { out.new ≡ answer_bytes answer ++ drop result out.old }
{
    match answer {
        Answer::Attitude(s, flags) => put(
            &setpoint_bytes(
                AnswerKind::Attitude as u8,
                s.roll_rad,
                s.pitch_rad,
                s.heading_rad,
                s.thrust,
                flags,
            ),
            out,
        ),
        Answer::BodyRate(s, flags) => put(
            &setpoint_bytes(
                AnswerKind::BodyRate as u8,
                s.roll_radps,
                s.pitch_radps,
                s.yaw_radps,
                s.thrust,
                flags,
            ),
            out,
        ),
        Answer::Refused(Refusal::NoRoom) => 0,
        Answer::Refused(refusal) => put(
            &[
                AnswerKind::Refused as u8,
                refusal.into(),
                refusal_field(refusal),
            ],
            out,
        ),
        Answer::Done => put(&[AnswerKind::Done as u8], out),
        Answer::NoWind => put(&[AnswerKind::NoWind as u8], out),
        Answer::Wind(w) => put(&wind_bytes(w), out),
    }
}
