// What the functions of all layers have: a number, and an answer from words to words.
ghost use Rattle.std.specs.Prelude.{◌≤◌, length, IfSome};
ghost use Rattle.std.specs.Int.{w32, to_le_bytes};

use crate::block::Replay;
use crate::entry::{Entry, Taken};
use buffers::{BUFFER, Buffer, Sink};
use words::Words;

// A result that the Rust does not give, since it would panic.
#[derive(Clone, Copy)]
pub struct NoResult;

// The oracle writes this word.
impl Words for NoResult {
    ghost bytes = { λ _. to_le_bytes w32 4294967295 };

    fn put<S: Sink>(self, out: &mut S) {
        u32::MAX.put(out);
    }
}

pub type Answers = Buffer<BUFFER>;

// An entry's words, and where its answer goes.
#[derive(Drop)]
pub struct Call<'a> {
    pub words: &'a [u8],
    pub answers: &'a mut Answers,
}

impl Call<'_> {
    // Answers by a function of the entry's words, and gives the count of bytes that it takes. None
    // where the entry is cut.
    pub fn answer<A: Taken, R: Words, F: FnOnce(A) -> R + Drop>(self, function: F) -> Option<usize>
        requires { F.IsAlwaysCallable function }
        ensures { IfSome result (λ taken. taken ≤ length self.entry.words.now) }
    {
        let mut entry = Entry { left: self.words };
        let words = entry.take()?;
        function(words).put(self.answers);
        Some(self.words.len() - entry.left.len())
    }
}

// The functions of a layer.
pub trait Layer: Copy + 'static {
    // In the order of the oracle's numbers. No derive lists the variants.
    const ALL: &'static [Self];

    // The function of this place. An `Option`, since no one asks why there is no such function.
    fn of(place: u8) -> Option<Self> {
        Self::ALL.get(usize::from(place)).copied()
    }

    // Answers a call, and gives the count of bytes that it takes. None where the entry is cut. `Call`
    // gives what is promised here, and `Replay` hands it on.
    fn answer(self, kept: &mut Replay, call: Call<'_>) -> Option<usize>
        ensures { IfSome result (λ taken. taken ≤ length call.entry.words.now) };
}
