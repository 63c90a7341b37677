// A craft's memory as words, in the order that tests/oracle/README.md gives under "Memory after each
// record".
ghost use Rattle.std.specs.Prelude.{◌≡◌, ◌++◌, take, Some};
ghost use Rattle.steps.specs.Memory as spec;

use buffers::Buffer;
use copter::commands::Flags;
use copter::memory::Memory;
use records::craft::Craft;
use words::Words;

// The bytes of the words of a craft.
const BYTES: usize = 4 * 63;

// The bytes of a craft's 63 words, with the flags of its last call. With no craft configured all are 0,
// and else no word is lost.
pub fn bytes(craft: Craft, flags: Flags) -> [u8; BYTES]
    ensures bytes { result ≡ spec.memory_bytes craft flags }
    ensures whole { (guidance : _) → craft.guidance ≡ Some guidance → result ≡ spec.craft_words (Some guidance) flags }
{
    craft_words(craft, flags).padded()
}

// None with no craft configured.
fn craft_words(craft: Craft, flags: Flags) -> Buffer<BYTES>
    ensures { result ≡ take 252 (spec.craft_words craft.guidance flags) }
{
    let mut out: Buffer<BYTES> = Buffer::new();
    if let Some(guidance) = craft.guidance {
        (true, flags.tilt, flags.thrust).put(&mut out);
        put_memory(guidance.memory, &mut out);
    }
    out
}

fn put_memory(memory: Memory, out: &mut Buffer<BYTES>)
    ensures { out.new ≡ take 252 (out.old ++ spec.memory_words memory) }
{
    let Memory {
        vertical,
        lateral,
        heading_rad,
        leg_heading,
        wind,
    } = memory;
    (
        (
            lateral.tilt_rad,
            lateral.tilt_capped,
            lateral.requested_accel_mps2,
        ),
        (vertical.target, vertical.descent_speed_mps),
        (lateral.rate.elapsed_s, heading_rad),
        (
            (leg_heading, wind),
            (vertical.controller.integrated_error, lateral.controller),
        ),
    )
        .put(out);
}
