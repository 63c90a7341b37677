// A flight: record after record, and the craft's memory.
ghost use Rattle.std.specs.Prelude.{◌≡◌, ◌≤◌, length};
ghost use Rattle.steps.specs.Turn.{flags_after, outcome, after_record, Turned};

use crate::memory;
use buffers::Program;
use copter::commands::Flags;
use records::answer::Answer;
use records::craft::Craft;
use records::step::{self, ANSWER_ROOM};
use std::io::Write;

// The craft, and the flags that the Rust keeps in it.
#[derive(Clone, Copy, Default)]
pub struct Flight {
    craft: Craft,
    flags: Flags,
}

// A call sets the flags, a configure and a priming clear them, and every other record leaves them.
fn flags_after(before: Flags, answer: Answer) -> Flags
    ensures { result ≡ flags_after before answer }
{
    match answer {
        Answer::Attitude(_, flags) | Answer::BodyRate(_, flags) => flags,
        Answer::Done => Flags::default(),
        Answer::Refused(_) | Answer::NoWind | Answer::Wind(_) => before,
    }
}

impl Flight {
    // Handles the record that `bytes` starts with, and gives the count of bytes that it took. What its
    // answer's bytes are does not matter here.
    fn step(&mut self, bytes: &[u8]) -> usize
        ensures taken { result ≡ (outcome self.old bytes.now).taken }
        ensures within { result ≤ length bytes.now }
        ensures after { self.new ≡ after_record self.old bytes.now }
    {
        let mut buffer = [0; ANSWER_ROOM];
        let handled = step::record(self.craft, bytes, &mut buffer);
        self.craft = handled.craft;
        self.flags = flags_after(self.flags, handled.answer);
        handled.taken
    }
}

// A turn is a record; with no byte held there is none. One that takes no byte has an unknown kind or is
// cut short, and ends the flight.
impl Program for Flight {
    ghost turned = { Turned };

    fn turn<W: Write>(&mut self, held: &[u8], _: Option<usize>, writer: &mut W) -> Option<usize> {
        if held.is_empty() {
            return None;
        }
        let taken = self.step(held);
        writer
            .write_all(&memory::bytes(self.craft, self.flags))
            .ok()?;
        (taken > 0).then_some(taken)
    }
}
