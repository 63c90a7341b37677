// Writes the craft's memory after each record. Standard input is a flight file; standard output gets 63
// words after every record, refused ones too, as `oracle steps` writes them. The file stdin holds a
// flight, and the file stdout the oracle's words.
#![tactic(auto)]

mod flight;
mod memory;

use buffers::{Buffer, Output, Reading};
use copter::config::FIELDS;
use flight::Flight;
use records::kinds::NUMBER;
use std::process::ExitCode;

// As long as the longest record, a configure: its kind and its fields.
const INPUT: usize = 1 + FIELDS * NUMBER;

fn main(rt: HostRuntime) -> ExitCode {
    let mut flight = Flight::default();
    let mut output = Output::new(rt.stdout());
    let read = Buffer::<INPUT>::new().run(
        &mut flight,
        Reading::Full,
        &mut rt.reader(),
        &mut output,
    );
    buffers::status(&rt, "steps", read, &output)
}
