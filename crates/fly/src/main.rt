// Flies a flight file: records on standard input, their answers on standard output. Each read is
// answered before the next, so that answers come out as records come in.
#![tactic(auto)]

mod ending;
mod flight;

ghost use Rattle.std.specs.Prelude.{◌≡◌};
ghost use Rattle.std.specs.Process.{exit_status};
ghost use Rattle.records.specs.Craft.{unconfigured};
ghost use Rattle.fly.specs.Flight.{Answered};

use buffers::Output;
use flight::Flight;
use std::io::{Read, Write};
use std::process::ExitCode;

const NAME: &str = "fly";

// Flies all that the reader gives, says on standard error what ended the flight or could not be read or written,
// and gives the status that the program ends with, 0 only where all answers of the whole input are written.
fn fly<E: Eprint, R: Read, W: Write>(rt: &E, reader: &mut R, output: &mut Output<W>) -> ExitCode
    ensures { exit_status result ≡ 0 → Answered (R.remaining reader.old) (W.contents output.old.writer) unconfigured (W.contents output.new.writer) }
{
    let mut flight = Flight::new();
    let read = flight.fly_all(reader, output);
    if let Some(ending) = flight.ending {
        let _ = eprintln!(rt; "{NAME}: {ending}");
    }
    let status = buffers::status(rt, NAME, read, output);
    if flight.complete {
        status
    } else {
        ExitCode::FAILURE
    }
}

fn main(rt: HostRuntime) -> ExitCode {
    fly(&rt, &mut rt.reader(), &mut Output::new(rt.stdout()))
}
