// Replays single functions of the port. Standard input is a list of entries, each a byte with the
// function's number and then its words, as `oracle fn` takes them; standard output gets the words
// that the oracle writes. The file stdin holds a list, and the file stdout the oracle's answers.
#![tactic(auto)]

mod block;
mod controllers_rs;
mod copter_rs;
mod entry;
mod heading_rs;
mod layer;
mod leaves;
mod math_rs;
mod wind_rs;

use block::Replay;
use buffers::{BUFFER, Buffer, Output, Reading};
use std::process::ExitCode;

fn main(rt: HostRuntime) -> ExitCode {
    let mut replay = Replay::default();
    let mut output = Output::new(rt.stdout());
    let read = Buffer::<BUFFER>::new().run(
        &mut replay,
        Reading::Full,
        &mut rt.reader(),
        &mut output,
    );
    buffers::status(&rt, "replay", read, &output)
}
