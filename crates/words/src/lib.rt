// What stored answers and memories are made of: words of 32 bits, low byte first, each the bits of a
// float or a whole number.
#![tactic(auto)]

mod types;

ghost use Rattle.std.specs.Prelude.{◌≡◌, ◌++◌, ℕ, List, take, to_bits};
ghost use Rattle.std.specs.Float.{binary32};
ghost use Rattle.std.specs.Int.{w32, to_le_bytes};
ghost use Rattle.floats.specs.Bits.{le_bytes};
ghost use Rattle.floats.specs.Ops.{f32 as float};
ghost use Rattle.words.specs.Words.{flag, none_or, ok_or};

use buffers::Sink;

pub trait Words {
    // The bytes of a value's words.
    ghost bytes: { Self → List ℕ };

    // Appends the words, as far as there is room.
    fn put<S: Sink>(self, out: &mut S)
        ensures { S.contents out.new ≡ take S.capacity (S.contents out.old ++ bytes self) };
}

// A type with a value whose words are all 0. A `Default` says what holds of a value, and the words of
// an `Option` need the value itself.
pub trait Blank {
    ghost blank: { Self };

    fn blank() -> Self
        ensures { result ≡ blank };
}

impl Words for u32 {
    ghost bytes = { to_le_bytes w32 };

    fn put<S: Sink>(self, out: &mut S) {
        out.append(&self.to_le_bytes());
    }
}

// 7FC00000 for every NaN.
impl Words for f32 {
    ghost bytes = { λ x. le_bytes (to_bits binary32 x) };

    fn put<S: Sink>(self, out: &mut S) {
        out.append(&floats::bits::to_le_bytes(self));
    }
}

impl Blank for f32 {
    ghost blank = { float 0 };

    fn blank() -> f32 {
        0.0
    }
}

impl Words for bool {
    ghost bytes = { flag };

    fn put<S: Sink>(self, out: &mut S) {
        u32::from(self).put(out);
    }
}

// A flag and the value; zeros where there is none. A match, as `unwrap_or` asks that a `T` can be
// dropped.
impl<T: Words + Blank> Words for Option<T> {
    ghost bytes = { none_or T.bytes T.blank };

    fn put<S: Sink>(self, out: &mut S) {
        match self {
            Some(x) => (true, x).put(out),
            None => (false, T::blank()).put(out),
        }
    }
}

// The words of the value, or of the error.
impl<T: Words, E: Words> Words for Result<T, E> {
    ghost bytes = { ok_or T.bytes E.bytes };

    fn put<S: Sink>(self, out: &mut S) {
        match self {
            Ok(x) => x.put(out),
            Err(e) => e.put(out),
        }
    }
}

// One impl for each length: impls are not written by macros here.
impl<A: Words, B: Words> Words for (A, B) {
    ghost bytes = { λ x. A.bytes x.0 ++ B.bytes x.1 };

    fn put<S: Sink>(self, out: &mut S) {
        self.0.put(out);
        self.1.put(out);
    }
}

impl<A: Words, B: Words, C: Words> Words for (A, B, C) {
    ghost bytes = { λ x. A.bytes x.0 ++ B.bytes x.1 ++ C.bytes x.2 };

    fn put<S: Sink>(self, out: &mut S) {
        self.0.put(out);
        self.1.put(out);
        self.2.put(out);
    }
}

impl<A: Words, B: Words, C: Words, D: Words> Words for (A, B, C, D) {
    ghost bytes = { λ x. A.bytes x.0 ++ B.bytes x.1 ++ C.bytes x.2 ++ D.bytes x.3 };

    fn put<S: Sink>(self, out: &mut S) {
        self.0.put(out);
        self.1.put(out);
        self.2.put(out);
        self.3.put(out);
    }
}
