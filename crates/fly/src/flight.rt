// A flight between two reads, and its turns.
ghost use Rattle.std.specs.Prelude.{◌≡◌, ◌≤◌, length, IfSome, take, None, true, false, IsSome};
ghost use Rattle.std.specs.Io.KnownBytes.{Appends};
ghost use Rattle.std.specs.Result.{result_ok};
ghost use Rattle.records.specs.Craft.{unconfigured};
ghost use Rattle.records.specs.Flight.{fly, flown};
ghost use Rattle.fly.specs.Flight.{onward, is_last, Flies, Answered};

use crate::ending::Ending;
use buffers::{BUFFER, Buffer, Program, Reading};
use records::craft::Craft;
use records::flight::{self, Flown};
use std::io::{self, Read, Write};

// The craft, the buffer of answers, the count of bytes that its records took, up to `u64::MAX`, why the flight has
// ended before its input, none while it goes on, and whether it is over and all its answers are written.
#[derive(Drop)]
pub struct Flight {
    pub craft: Craft,
    pub answers: [u8; BUFFER],
    pub taken: u64,
    pub ending: Option<Ending>,
    pub complete: bool,
}

impl Flight {
    pub fn new() -> Self
        ensures craft { result.craft ≡ unconfigured }
        ensures taken { result.taken ≡ 0 }
        ensures ending { result.ending ≡ None }
        ensures complete { result.complete ≡ false }
    {
        Flight {
            craft: Craft::new(),
            answers: [0; BUFFER],
            taken: 0,
            ending: None,
            complete: false,
        }
    }

    // Flies as many records as a buffer of answers holds.
    fn fly_on(&mut self, input: &[u8], last: bool) -> Flown
        ensures room { length self.new.answers ≡ 65536 }
        ensures flown { flown result self.new.answers ≡ fly self.old.craft input.now last self.old.answers }
        ensures after { self.new ≡ onward self.old input.now last }
    {
        let flown = flight::fly(self.craft, input, last, &mut self.answers[..]);
        self.craft = flown.craft;
        self.taken = self.taken.saturating_add(flown.taken as u64);
        if flown.ended {
            self.ending = Ending::of(self.taken, &input[flown.taken..]);
        }
        flown
    }

    // The same, and writes the answers. None where the write fails.
    fn fly_some<W: Write>(&mut self, input: &[u8], last: bool, writer: &mut W) -> Option<Flown>
        ensures room { length self.new.answers ≡ 65536 }
        ensures within { IfSome result (λ r. r.taken ≤ length input.now) }
        ensures flown { IfSome result (λ r. flown r self.new.answers ≡ fly self.old.craft input.now last self.old.answers) }
        ensures written { IfSome result (λ r. Appends (W.contents writer.old) (W.contents writer.new) (take r.written self.new.answers)) }
        ensures after { self.new ≡ onward self.old input.now last }
    {
        let flown = self.fly_on(input, last);
        let answers = &self.answers[..];
        writer.write_all(&answers[..flown.written]).ok()?;
        Some(flown)
    }

    // Flies all that the reader gives, and gives what its last read gave. Where no read failed and the flight is
    // complete, all answers of the whole input are written.
    pub fn fly_all<R: Read, W: Write>(
        &mut self,
        reader: &mut R,
        writer: &mut W,
    ) -> io::Result<usize>
        ensures { IsSome (result_ok result) → self.new.complete ≡ true → Answered (R.remaining reader.old) (W.contents writer.old) self.old.craft (W.contents writer.new) }
    {
        Buffer::<BUFFER>::new().run(self, Reading::Once, reader, writer)
    }
}

// Whether nothing more comes, or the read failed.
fn is_last(got: Option<usize>) -> bool
    ensures { result ≡ is_last got }
{
    got.is_none_or(|count| count == 0)
}

// A turn flies all whole records, one buffer of answers after another. With no more to come, and where the
// read failed, it is the last.
impl Program for Flight {
    ghost turned = { Flies };

    fn turn<W: Write>(&mut self, held: &[u8], got: Option<usize>, writer: &mut W) -> Option<usize> {
        let last = is_last(got);
        let mut taken = 0;
        self.complete = false;
        // Each call says how many bytes its records took, so no iterator goes over them.
        loop {
            let flown = self.fly_some(&held[taken..], last, writer)?;
            if flown.ended {
                self.complete = true;
                return None;
            }
            if flown.taken == 0 {
                self.complete = last;
                return (!last).then_some(taken);
            }
            taken += flown.taken;
        }
    }
}
