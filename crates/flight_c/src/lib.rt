// A whole flight under a C name, for the driver of bench/, which is not in Rattle.
#![tactic(auto)]

ghost use Rattle.std.specs.Prelude.{◌≡◌, true};
ghost use Rattle.records.specs.Craft.{unconfigured};
ghost use Rattle.records.specs.Flight.{fly};

use records::craft::Craft;

// Flies the records of `bytes`, from a craft that is not configured, puts their answers into `out` and
// gives the number of bytes written.
#[unsafe(no_mangle)]
pub extern "C" fn tarragonhoe_fly(bytes: &[u8], out: &mut [u8]) -> usize
    ensures value { result ≡ (fly unconfigured bytes.now true out.old).written }
    ensures out_after { out.new ≡ (fly unconfigured bytes.now true out.old).buffer }
{
    let flown = records::flight::fly(Craft::new(), bytes, true, out);
    flown.written
}
