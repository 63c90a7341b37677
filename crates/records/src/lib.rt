// The records of a flight file: one operation reads a record, guides the craft and writes the answer.
#![tactic(auto)]

pub mod answer;
mod body;
pub mod craft;
pub mod flight;
pub mod kinds;
mod read;
pub mod step;
mod turn;
mod write;
