// What a program says at its end of what it could not read or write.
ghost use Rattle.std.specs.Prelude.{◌≡◌};
ghost use Rattle.std.specs.Process.{exit_status};
ghost use Rattle.buffers.specs.Output.{status_of};

use crate::Output;
use std::io::{self, ErrorKind, Write};
use std::process::ExitCode;

// The system's number for a stream that is closed, which has no kind of its own.
const CLOSED: i32 = 9;

// In words of its own: the C library's would rest on one more contract that is assumed.
fn reason(error: io::Error) -> &'static str {
    match error.kind() {
        ErrorKind::WouldBlock => "it has to be waited for, which this program cannot do",
        ErrorKind::IsADirectory => "it is a directory",
        ErrorKind::StorageFull | ErrorKind::QuotaExceeded => "no space is left",
        ErrorKind::FileTooLarge => "the file would be too large",
        ErrorKind::BrokenPipe => "nobody reads it any more",
        ErrorKind::WriteZero => "it takes no byte",
        _ if error.raw_os_error() == Some(CLOSED) => "it is closed",
        _ => "the system refused",
    }
}

// The system's number for an error, and 0 for one that is not the system's.
fn number(error: io::Error) -> i32 {
    error.raw_os_error().unwrap_or(0)
}

// Says on standard error what `name` could not read or write, from what its last read gave and its output, and
// gives the status that it ends with: 1 where there is something to say, 0 where not.
pub fn status<E: Eprint, W: Write>(
    rt: &E,
    name: &str,
    read: io::Result<usize>,
    output: &Output<W>,
) -> ExitCode
    ensures { exit_status result ≡ status_of read output.now.failed }
{
    if let Err(error) = read {
        let _ = eprintln!(rt;
            "{name}: cannot read standard input: {} (error {})",
            reason(error),
            number(error)
        );
    }
    if let Some(error) = output.failed {
        let _ = eprintln!(rt;
            "{name}: cannot write to standard output: {} (error {}); {} bytes of answers are written, the others lost",
            reason(error),
            number(error),
            output.written
        );
    }
    ExitCode::from(u8::from(read.is_err() || output.failed.is_some()))
}
