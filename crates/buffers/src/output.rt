// A writer that remembers how much it took, and why it takes no more.
ghost use Rattle.std.specs.Prelude.{◌≡◌, None, ℕ, List, Option};
ghost use Rattle.std.specs.Io.{WritesAtMost};
ghost use Rattle.std.specs.Io.KnownBytes.{WriteAppends, Keeps};
ghost use Rattle.buffers.specs.Output.{Failure, Told};

use std::io::{self, ErrorKind, Write};

// The count of bytes that the writer took, up to `u64::MAX`, and why its last write failed; none where that took
// a byte, or had none to take.
#[derive(Drop)]
pub struct Output<W> {
    pub writer: W,
    pub written: u64,
    pub failed: Option<io::Error>,
}

impl<W: Write> Output<W> {
    pub fn new(writer: W) -> Self
        ensures writer { result.writer ≡ writer }
        ensures written { result.written ≡ 0 }
        ensures failed { result.failed ≡ None }
    {
        Output {
            writer,
            written: 0,
            failed: None,
        }
    }
}

// Why a write failed that was to take `len` bytes. One that takes none of some has failed too.
fn failure(len: usize, taken: io::Result<usize>) -> Option<io::Error>
    ensures { Failure len taken result }
{
    match taken {
        Ok(0) if len > 0 => Some(io::Error::from(ErrorKind::WriteZero)),
        Ok(_) => None,
        Err(error) => Some(error),
    }
}

impl<W: Write> Write for Output<W> {
    ghost contents = { λ o. W.contents o.writer };

    fn write(&mut self, bytes: &[u8]) -> io::Result<usize>
        ensures bound { WritesAtMost result bytes.now }
        ensures bytes { WriteAppends (W.contents self.old.writer) (W.contents self.new.writer) result bytes.now }
        ensures told { Told self.old self.new bytes.now result }
    {
        let taken = self.writer.write(bytes);
        self.failed = failure(bytes.len(), taken);
        self.written = self.written.saturating_add(taken.unwrap_or(0) as u64);
        taken
    }

    fn flush(&mut self) -> io::Result<()> {
        self.writer.flush()
    }
}
