// The loop that every program is: it reads, the program answers what it can of the bytes that are held,
// and the rest is kept for the next turn.
ghost use Rattle.std.specs.Prelude.{◌≤◌, length, ℕ, List, Option, IfSome, ⊤};
ghost use Rattle.std.specs.Result.{result_ok};
ghost use Rattle.buffers.specs.Buffers.{Reads, Gives};
ghost use Rattle.buffers.specs.Turns.{Turned};

use crate::Buffer;
use std::io::{self, Read, Write};

// What one turn reads. A closure that reads would owe what these promise of a read, and no exported
// function asks anything of its caller.
#[derive(Clone, Copy)]
pub enum Reading {
    // What one read gives, so that the answers come out as the input comes in.
    Once,

    // As much as the buffer has room for, so that what is held starts with a whole entry or ends with
    // the input.
    Full,
}

pub trait Program {
    // What a turn is: of the program before it, the bytes held, what the read gave, the bytes that the writer
    // holds before it and after it, the count of bytes taken and the program after it.
    ghost turned: { Self → List ℕ → Option ℕ → Option (List ℕ) → Option (List ℕ) → Option ℕ → Self → Type 0 } = { λ _ _ _ _ _ _ _. ⊤ };

    // Answers what it can of the bytes held and gives the count of those that it took; none where it
    // stops. `got` is the count of bytes that the turn's read gave, none where the read failed. 0 says
    // that the input has ended, or that the buffer is full.
    fn turn<W: Write>(&mut self, held: &[u8], got: Option<usize>, writer: &mut W) -> Option<usize>
        ensures within { IfSome result (λ taken. taken ≤ length held.now) }
        ensures met { turned self.old held.now got (W.contents writer.old) (W.contents writer.new) result self.new };
}

impl<const N: usize> Buffer<N> {
    fn read_more<R: Read>(&mut self, reading: Reading, reader: &mut R) -> io::Result<usize>
        ensures reads { Reads (R.remaining reader.old) (R.remaining reader.new) self.old self.new }
        ensures gives { Gives reading N (result_ok result) self.old self.new (R.remaining reader.new) }
    {
        match reading {
            Reading::Once => self.try_read(reader),
            Reading::Full => self.try_fill(reader),
        }
    }

    // Runs a program over this buffer until it stops, for at most `u64::MAX` turns, and gives what the last
    // turn's read gave. Each main hands it standard input and output: a function here that did would say
    // nothing of what is read, since no clause knows those bytes.
    pub fn run<R: Read, W: Write, P: Program>(
        &mut self,
        program: &mut P,
        reading: Reading,
        reader: &mut R,
        writer: &mut W,
    ) -> io::Result<usize>
        ensures { Turned P.turned reading N (R.remaining reader.old) (W.contents writer.old) program.old self.old (R.remaining reader.new) (W.contents writer.new) program.new (result_ok result) }
    {
        // So many turns never pass, and a loop with no bound would owe a `Wait`.
        for _ in 0..u64::MAX {
            let got = self.read_more(reading, reader);
            let Some(taken) = program.turn(self.held(), got.ok(), writer) else {
                return got;
            };
            self.drop_front(taken);
        }
        Ok(0)
    }
}
