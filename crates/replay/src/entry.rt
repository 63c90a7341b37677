// The words of an entry, taken one after another: 32 bits each, low byte first, either the bits of a
// float or a whole number.
ghost use Rattle.std.specs.Prelude.{◌≤◌, length};

use altitude::{AltitudeControllerConfig, AltitudeEstimate, AltitudeTarget};
use floats::bits::from_bits;
use heading::HeadingConfig;
use lateral::{LateralControllerConfig, LateralEstimate, LateralTarget};
use math::vectors::{Quaternion, Vec2, Vec3};
use wind::drag::WindConfig;
use wind::estimate::{Matrix2, WindEstimate};
use wind::state::VehicleState;

// The bytes of the words that are left.
#[derive(Drop)]
pub struct Entry<'a> {
    pub left: &'a [u8],
}

impl Entry<'_> {
    // None where the entry is cut.
    pub fn take<T: Taken>(&mut self) -> Option<T>
        ensures { length self.new.left.now ≤ length self.old.left.now }
    {
        T::taken(self)
    }

    fn bytes<const N: usize>(&mut self) -> Option<[u8; N]>
        ensures { length self.new.left.now ≤ length self.old.left.now }
    {
        let (bytes, left) = self.left.split_first_chunk::<N>()?;
        self.left = left;
        Some(*bytes)
    }
}

// What words are taken for. `Entry::bytes` and the impl of an array of floats give what is promised here, and
// `Entry::take` hands it on.
pub trait Taken: Copy {
    fn taken(entry: &mut Entry<'_>) -> Option<Self>
        ensures { length entry.new.left.now ≤ length entry.old.left.now };
}

impl Taken for u32 {
    fn taken(entry: &mut Entry<'_>) -> Option<u32> {
        entry.bytes().map(u32::from_le_bytes)
    }
}

impl Taken for bool {
    fn taken(entry: &mut Entry<'_>) -> Option<bool> {
        let word: u32 = entry.take()?;
        Some(word != 0)
    }
}

// Every NaN pattern gives a NaN, here and of two words.
impl Taken for f32 {
    fn taken(entry: &mut Entry<'_>) -> Option<f32> {
        entry.take().map(from_bits)
    }
}

// The low word first.
impl Taken for f64 {
    fn taken(entry: &mut Entry<'_>) -> Option<f64> {
        let bits = u64::from_le_bytes(entry.bytes()?);
        Some(std::num::f64_from_bits_with_nan(bits))
    }
}

// The words are split off together, so that one test of the length serves them all.
impl<const N: usize> Taken for [f32; N] {
    fn taken(entry: &mut Entry<'_>) -> Option<[f32; N]> {
        let (bytes, left) = entry.left.split_at_checked(N.checked_mul(4)?)?;
        let mut floats = [0.0; N];
        for (float, word) in floats.iter_mut().zip(bytes.as_chunks::<4>().0) {
            *float = from_bits(u32::from_le_bytes(*word));
        }
        entry.left = left;
        Some(floats)
    }
}

// One impl for each length: impls are not written by macros here.
impl<A: Taken, B: Taken> Taken for (A, B) {
    fn taken(entry: &mut Entry<'_>) -> Option<(A, B)> {
        Some((entry.take()?, entry.take()?))
    }
}

impl<A: Taken, B: Taken, C: Taken> Taken for (A, B, C) {
    fn taken(entry: &mut Entry<'_>) -> Option<(A, B, C)> {
        Some((entry.take()?, entry.take()?, entry.take()?))
    }
}

impl<A: Taken, B: Taken, C: Taken, D: Taken> Taken for (A, B, C, D) {
    fn taken(entry: &mut Entry<'_>) -> Option<(A, B, C, D)> {
        Some((entry.take()?, entry.take()?, entry.take()?, entry.take()?))
    }
}

// A flag and the value, which is there whatever the flag.
impl<T: Taken> Taken for Option<T> {
    fn taken(entry: &mut Entry<'_>) -> Option<Option<T>> {
        let (known, value): (bool, T) = entry.take()?;
        Some(known.then_some(value))
    }
}

// A type's fields in turn. Each names its own.
impl Taken for Vec2 {
    fn taken(entry: &mut Entry<'_>) -> Option<Vec2> {
        let (x, y) = entry.take()?;
        Some(Vec2 { x, y })
    }
}

impl Taken for Vec3 {
    fn taken(entry: &mut Entry<'_>) -> Option<Vec3> {
        let (x, y, z) = entry.take()?;
        Some(Vec3 { x, y, z })
    }
}

impl Taken for Quaternion {
    fn taken(entry: &mut Entry<'_>) -> Option<Quaternion> {
        let (w, i, j, k) = entry.take()?;
        Some(Quaternion { w, i, j, k })
    }
}

impl Taken for Matrix2 {
    fn taken(entry: &mut Entry<'_>) -> Option<Matrix2> {
        let (m00, m01, m10, m11) = entry.take()?;
        Some(Matrix2 { m00, m01, m10, m11 })
    }
}

impl Taken for WindEstimate {
    fn taken(entry: &mut Entry<'_>) -> Option<WindEstimate> {
        Some(WindEstimate {
            velocity_mps: entry.take()?,
            covariance_m2ps2: entry.take()?,
        })
    }
}

impl Taken for AltitudeTarget {
    fn taken(entry: &mut Entry<'_>) -> Option<AltitudeTarget> {
        Some(AltitudeTarget {
            altitude_m: entry.take()?,
            velocity_mps: entry.take()?,
        })
    }
}

impl Taken for AltitudeEstimate {
    fn taken(entry: &mut Entry<'_>) -> Option<AltitudeEstimate> {
        Some(AltitudeEstimate {
            altitude_m: entry.take()?,
            velocity_mps: entry.take()?,
            attitude: entry.take()?,
        })
    }
}

impl Taken for LateralTarget {
    fn taken(entry: &mut Entry<'_>) -> Option<LateralTarget> {
        Some(LateralTarget {
            position_m: entry.take()?,
            velocity_mps: entry.take()?,
            max_speed_mps: entry.take()?,
        })
    }
}

impl Taken for LateralEstimate {
    fn taken(entry: &mut Entry<'_>) -> Option<LateralEstimate> {
        Some(LateralEstimate {
            position_m: entry.take()?,
            velocity_mps: entry.take()?,
        })
    }
}

// From so many numbers as the type has; one impl for all would leave the count open.
impl Taken for VehicleState {
    fn taken(entry: &mut Entry<'_>) -> Option<VehicleState> {
        entry.take::<[f32; 15]>().map(VehicleState::from)
    }
}

impl Taken for AltitudeControllerConfig {
    fn taken(entry: &mut Entry<'_>) -> Option<AltitudeControllerConfig> {
        entry.take::<[f32; 6]>().map(AltitudeControllerConfig::from)
    }
}

impl Taken for LateralControllerConfig {
    fn taken(entry: &mut Entry<'_>) -> Option<LateralControllerConfig> {
        entry.take::<[f32; 8]>().map(LateralControllerConfig::from)
    }
}

impl Taken for WindConfig {
    fn taken(entry: &mut Entry<'_>) -> Option<WindConfig> {
        entry.take::<[f32; 9]>().map(WindConfig::from)
    }
}

impl Taken for HeadingConfig {
    fn taken(entry: &mut Entry<'_>) -> Option<HeadingConfig> {
        entry.take::<[f32; 10]>().map(HeadingConfig::from)
    }
}
