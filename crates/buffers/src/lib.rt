// What the programs share: a buffer of bytes, and the loop that reads and answers.
#![tactic(auto)]

mod launcher;
mod output;
mod report;

ghost use Rattle.std.specs.Prelude.{ℕ, ◌≡◌, ◌+◌, ◌-◌, ◌≤◌, ◌++◌, length, take, drop, replicate, List, []};
ghost use Rattle.std.specs.Result.{result_ok};
ghost use Rattle.buffers.specs.Buffers.{moved, Reads, Gives};

pub use launcher::{Program, Reading};
pub use output::Output;
pub use report::status;
use std::io::{self, Read};
use std::marker::Model;

// The bytes of a long buffer.
pub const BUFFER: usize = 65536;

// At most `N` bytes. Clauses see the list of them. A `Vec` would be on the heap, and an `ArrayVec` lends no
// room behind its last byte to read into.
#[derive(Drop)]
pub struct Buffer<const N: usize> {
    bytes: [u8; N],
    held: usize,
}

impl<const N: usize> Model for Buffer<N> {
    ghost use Rattle.std.specs.Prelude.{ℕ, List, take, ◌≤◌};

    ghost Value = { List ℕ };

    ghost view = { λ b. take b.held b.bytes };

    ghost invariant = { λ b. b.held ≤ N };
}

impl<const N: usize> Buffer<N> {
    pub fn new() -> Self
        ensures { result ≡ [] }
    {
        Buffer {
            bytes: [0; N],
            held: 0,
        }
    }

    pub fn held(&self) -> &[u8]
        ensures bytes { result.now ≡ self.now }
        ensures within { length self.now ≤ N }
    {
        &self.bytes[..self.held]
    }

    // What is held and zeros behind it.
    pub fn padded(&self) -> [u8; N]
        ensures { result ≡ self.now ++ replicate (N - length self.now) 0 }
    {
        let mut padded = [0; N];
        put_front(&mut padded, self.held());
        padded
    }

    // How many bytes more it can hold.
    pub fn room(&self) -> usize
        ensures { length self.now + result ≡ N }
    {
        N - self.held
    }

    // Reads once behind what is held, and gives the count of bytes read: 0 at the end of the input,
    // with no room and where the read fails.
    pub fn read<R: Read>(&mut self, reader: &mut R) -> usize
        ensures count { length self.new ≡ length self.old + result }
        ensures reads { Reads (R.remaining reader.old) (R.remaining reader.new) self.old self.new }
    {
        self.try_read(reader).unwrap_or(0)
    }

    // The same, but the reader's error where the read fails. The others that read hand on its `reads`.
    pub fn try_read<R: Read>(&mut self, reader: &mut R) -> io::Result<usize>
        ensures reads { Reads (R.remaining reader.old) (R.remaining reader.new) self.old self.new }
        ensures gives { Gives Reading.Once N (result_ok result) self.old self.new (R.remaining reader.new) }
    {
        let all = &mut self.bytes[..];
        let got = reader.read(&mut all[self.held..])?;
        self.held += got;
        Ok(got)
    }

    // Reads until it is full, the input ends or a read fails, and gives the count of bytes read.
    pub fn fill<R: Read>(&mut self, reader: &mut R) -> usize
        ensures count { length self.new ≡ length self.old + result }
        ensures reads { Reads (R.remaining reader.old) (R.remaining reader.new) self.old self.new }
    {
        let before = self.held().len();
        let _ = self.try_fill(reader);
        self.held().len() - before
    }

    // The same, but the reader's error where a read fails.
    pub fn try_fill<R: Read>(&mut self, reader: &mut R) -> io::Result<usize>
        ensures reads { Reads (R.remaining reader.old) (R.remaining reader.new) self.old self.new }
        ensures gives { Gives Reading.Full N (result_ok result) self.old self.new (R.remaining reader.new) }
    {
        let before = self.room();
        // Each read that goes on gives a byte, so `N` are enough.
        for _ in 0..N {
            if self.room() == 0 || self.try_read(reader)? == 0 {
                break;
            }
        }
        Ok(before - self.room())
    }

    // Puts bytes behind what is held; there is room for them.
    fn put(&mut self, bytes: &[u8])
        requires { length self.old + length bytes.now ≤ N }
        ensures { self.new ≡ self.old ++ bytes.now }
    {
        let end = self.held + bytes.len();
        let all = &mut self.bytes[..];
        all[self.held..end].copy_from_slice(bytes);
        self.held = end;
    }

    // Drops the first `count` bytes and moves the others to the start.
    pub fn drop_front(&mut self, count: usize)
        ensures { self.new ≡ drop count self.old }
    {
        move_down(&mut self.bytes, count, self.held);
        self.held = self.held.saturating_sub(count);
    }
}

fn put_front(all: &mut [u8], bytes: &[u8])
    requires { length bytes.now ≤ length all.old }
    ensures { all.new ≡ bytes.now ++ drop (length bytes.now) all.old }
{
    all[..bytes.len()].copy_from_slice(bytes);
}

// What bytes are appended to, as far as there is room.
pub trait Sink {
    ghost contents: { Self → List ℕ };

    ghost capacity: { ℕ };

    fn append(&mut self, bytes: &[u8])
        ensures { contents self.new ≡ take capacity (contents self.old ++ bytes.now) };
}

impl<const N: usize> Sink for Buffer<N> {
    ghost contents = { λ b. b };

    ghost capacity = { N };

    // Bytes that all fit are put by a call of their own, in which the compiler knows how many a caller
    // appends: a word can then be one store.
    fn append(&mut self, bytes: &[u8]) {
        let room = self.room();
        if bytes.len() <= room {
            self.put(bytes);
        } else {
            self.put(&bytes[..room]);
        }
    }
}

// Reads behind the first `held` bytes until the buffer is full, the input ends or a read fails, and gives how
// many bytes are then held. A `held` past the buffer reads nothing. Public before `Buffer` was, and here the
// buffer may be of any size and `held` past it.
pub fn fill<R: Read>(reader: &mut R, bytes: &mut [u8], held: usize) -> usize
    ensures not_fewer { held ≤ result }
    ensures within { held ≤ length bytes.old → result ≤ length bytes.old }
    ensures same_length { length bytes.new ≡ length bytes.old }
    ensures kept { take held bytes.new ≡ take held bytes.old }
{
    let mut filled = held;
    for _ in 0..bytes.len() {
        if filled >= bytes.len() {
            break;
        }
        let Ok(got) = reader.read(&mut bytes[filled..]) else {
            break;
        };
        if got == 0 {
            break;
        }
        filled += got;
    }
    filled
}

// Moves the bytes from `from` to `end` to the start. An `end` past the buffer, or a `from` past `end`,
// moves nothing. Public before `Buffer` was, and here `end` may be past the bytes.
pub fn move_down(bytes: &mut [u8], from: usize, end: usize)
    ensures { bytes.new ≡ moved bytes.old from end }
{
    if end <= bytes.len() && from < end {
        bytes.copy_within(from..end, 0);
    }
}
