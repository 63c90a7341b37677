// A float from and to its bit pattern, NaN patterns included.
ghost use Rattle.std.specs.Prelude.{◌≡◌, from_bits, to_bits};
ghost use Rattle.std.specs.Float.{binary32};
ghost use Rattle.floats.specs.Bits.{le_bytes};
ghost use Rattle.floats.specs.Compare.{abs};

// The weight of the sign's bit in a pattern of `f32`, 2^31.
pub const SIGN: u32 = 0x8000_0000;

// The pattern of the infinity.
pub const INFINITE: u32 = 0x7F80_0000;

// The weight of the exponent's field in a pattern of `f32`, and of the leading digit: 2^23.
pub const LEAD: u32 = 0x80_0000;

// The pattern of 2^-12: an angle that is smaller is its own sine and its own arctangent.
pub const TINY: u32 = 0x3980_0000;

// The float that a pattern stands for. Every NaN pattern gives a NaN.
pub fn from_bits(bits: u32) -> f32
    ensures { result ≡ from_bits binary32 bits }
{
    std::num::f32_from_bits_with_nan(bits)
}

// The pattern of a float. A NaN gives 7FC00000.
pub fn to_bits(x: f32) -> u32
    ensures { result ≡ to_bits binary32 x }
{
    std::num::f32_to_bits_with_nan(x)
}

// The pattern of a float's size, which is the float's without the highest bit. A NaN gives 7FC00000.
#[tactic(auto, using(crate::proofs::Laws::Sizes::size_of_bits))]
pub fn size_bits(x: f32) -> u32
    ensures { result ≡ to_bits binary32 (abs x) }
{
    to_bits(x) % SIGN
}

// The four bytes of a float, the low byte first. std's asks for no NaN.
pub fn to_le_bytes(x: f32) -> [u8; 4]
    ensures { result ≡ le_bytes (to_bits binary32 x) }
{
    to_bits(x).to_le_bytes()
}
