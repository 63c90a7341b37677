// Entries in a block of bytes, and their answers. An entry is a byte with the function's number and
// then the words that it takes; an answer is the words that it gives.
ghost use Rattle.std.specs.Prelude.{◌≤◌, length, IfSome};

use crate::controllers_rs::Controller;
use crate::copter_rs::Tilt;
use crate::heading_rs::Heading;
use crate::layer::{Answers, Call, Layer};
use crate::leaves::Leaf;
use crate::math_rs::Helper;
use crate::wind_rs::Wind;
use altitude::AltitudeController;
use buffers::{Buffer, Program};
use controllers::derivative::DerivativeState;
use controllers::rate_divider::RateDivider;
use heading::hover_wind::HoverWind;
use heading::leg_heading::LegHeading;
use heading::wind_heading::WindHeading;
use lateral::LateralController;
use std::io::Write;

// The bytes of the longest answer.
const LONGEST: usize = 80;

// What the functions with memory keep from entry to entry.
#[derive(Clone, Copy, Default)]
pub struct Replay {
    pub divider: RateDivider,
    pub history: DerivativeState,
    pub altitude: AltitudeController,
    pub lateral: LateralController,
    pub hover_wind: HoverWind,
    pub wind_heading: WindHeading,
    pub leg_heading: LegHeading,
}

impl Replay {
    // Answers a call of the function with this number, and gives the count of bytes that it takes. None
    // where there is no such function, or the entry is cut.
    fn answer(&mut self, number: u8, call: Call<'_>) -> Option<usize>
        ensures { IfSome result (λ taken. taken ≤ length call.entry.words.now) }
    {
        // Each layer has twenty numbers, and is another type.
        let (layer, place) = (number / 20, number % 20);
        match layer {
            0 => Leaf::of(place)?.answer(self, call),
            1 => Helper::of(place)?.answer(self, call),
            2 => Controller::of(place)?.answer(self, call),
            3 => Wind::of(place)?.answer(self, call),
            4 => Heading::of(place)?.answer(self, call),
            5 => Tilt::of(place)?.answer(self, call),
            _ => None,
        }
    }

    // Answers the entry that `bytes` starts with, and gives the count of bytes that it takes. None
    // where it is cut, has no known number or has no room for its answer.
    fn entry(&mut self, bytes: &[u8], answers: &mut Answers) -> Option<usize>
        ensures { IfSome result (λ taken. (1 ≤ taken) × (taken ≤ length bytes.now)) }
    {
        let (number, words) = bytes.split_first()?;
        if answers.room() < LONGEST {
            return None;
        }
        let taken = self.answer(*number, Call { words, answers })?;
        Some(1 + taken)
    }

    // Answers the entries in order, up to one that is not answered, and gives the count of bytes that
    // they take.
    fn entries(&mut self, bytes: &[u8], answers: &mut Answers) -> usize
        ensures { result ≤ length bytes.now }
    {
        let mut taken = 0;
        // How many bytes an entry takes is known once it is answered, so no iterator goes over them.
        while let Some(more) = self.entry(&bytes[taken..], answers) {
            taken += more;
        }
        taken
    }
}

// A turn answers the entries that are whole. The last is one that answers none.
impl Program for Replay {
    fn turn<W: Write>(&mut self, held: &[u8], _: Option<usize>, writer: &mut W) -> Option<usize> {
        let mut answers: Answers = Buffer::new();
        let taken = self.entries(held, &mut answers);
        writer.write_all(answers.held()).ok()?;
        (taken > 0).then_some(taken)
    }
}
