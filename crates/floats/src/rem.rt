// The remainder of a division, without the C library's fmodf.
ghost use Rattle.std.specs.Prelude.{◌≡◌, ◌+◌, ◌-◌, ◌*◌, ◌/◌, ◌%◌, ◌^◌, ◌<◌, min, false};
ghost use Rattle.std.specs.Float.{binary32};
ghost use Rattle.std.specs.Float.Ieee.{rem};
ghost use Rattle.std.specs.Float.Ieee.Exact.{HasValue};

use crate::bits::{INFINITE, LEAD, size_bits};
use crate::compare::{is_negative, with_sign};

// A size with the pattern `size` is `digits(size)` * 2^(`place(size)` - 149).
fn digits(size: u32) -> u32
    ensures { result ≡ min 1 (size / 8388608) * 8388608 + size % 8388608 }
{
    if size < LEAD {
        return size;
    }
    size % LEAD + LEAD
}

fn place(size: u32) -> u32
    ensures { result ≡ size / 8388608 - 1 }
{
    (size / LEAD).saturating_sub(1)
}

// m * 2^k modulo n.
#[tactic(auto, using(crate::proofs::Laws::Digits::doubled_mod))]
fn shifted_mod(m: u32, n: u32, k: u32) -> u32
    requires above_zero { 0 < n }
    requires digits { n < 2 ^ 24 }
    ensures { result ≡ m * 2 ^ k % n }
{
    let mut r = m % n;
    for _ in 0..k {
        r = 2 * r % n;
    }
    r
}

// 2^(k - 149).
fn power(k: u32) -> f32
    requires { k < 254 }
    ensures { HasValue result false (2 ^ k) (2 ^ 149) }
{
    // Below 2^-126 a float has no leading digit.
    if k < 23 {
        return f32::from_bits(1 << k);
    }
    f32::from_bits((k - 22) * LEAD)
}

// The remainder has the sign of x, and is exact. Both sizes are whole multiples of the last place of
// y's, unless x's is the smaller and its own remainder: so the remainder is one of whole numbers.
pub fn rem(x: f32, y: f32) -> f32
    ensures { result ≡ rem binary32 x y }
{
    if x.is_nan() {
        return x;
    }
    if y.is_nan() {
        return y;
    }
    let a = size_bits(x);
    let b = size_bits(y);
    if a == INFINITE || b == 0 {
        return f32::NAN;
    }
    if a < b {
        return x;
    }
    let low = place(b);
    let r = shifted_mod(digits(a), digits(b), place(a) - low);
    with_sign(is_negative(x), std::num::nearest_u32_to_f32(r)) * power(low)
}
