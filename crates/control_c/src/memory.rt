// What stands as numbers in an array of C, and what may be missing there: a flag, 0.0 where it is
// missing, and the value after it.
ghost use Rattle.std.specs.Prelude.{◌≡◌, ◌+◌, ◌<◌, ◌≤◌, ℕ, Float, List, length, take, drop};
ghost use Rattle.control_c.specs.Places.{at, vec2, quaternion};
ghost use Rattle.control_c.specs.Missing.{given_from, held, estimate, leg};

use heading::leg_heading::Leg;
use math::vectors::{Quaternion, Vec2};
use wind::estimate::{Matrix2, WindEstimate};

// A value of a fixed count of numbers, one after another. It is read only: an array is written whole where it
// is written, so that C's table of places can be read beside it.
pub trait Numbers: Copy {
    ghost count: { ℕ };

    ghost value: { List Float → ℕ → Self };

    // The value whose numbers begin at a place.
    fn read(l: &[f32], k: usize) -> Self
        requires { k + count ≤ length l.now }
        ensures { result ≡ value l.now k };
}

impl Numbers for f32 {
    ghost count = { 1 };

    ghost value = { at };

    fn read(l: &[f32], k: usize) -> f32 {
        l[k]
    }
}

impl Numbers for Vec2 {
    ghost count = { 2 };

    ghost value = { λ l k. vec2 l k (k + 1) };

    fn read(l: &[f32], k: usize) -> Vec2 {
        Vec2 {
            x: l[k],
            y: l[k + 1],
        }
    }
}

impl Numbers for Quaternion {
    ghost count = { 4 };

    ghost value = { quaternion };

    fn read(l: &[f32], k: usize) -> Quaternion {
        Quaternion {
            w: l[k],
            i: l[k + 1],
            j: l[k + 2],
            k: l[k + 3],
        }
    }
}

// The numbers that a configuration is made of.
impl<const N: usize> Numbers for [f32; N] {
    ghost count = { N };

    ghost value = { λ l k. take N (drop k l) };

    fn read(l: &[f32], k: usize) -> [f32; N] {
        let mut numbers = [0.0; N];
        numbers.copy_from_slice(&l[k..k + N]);
        numbers
    }
}

impl Numbers for WindEstimate {
    ghost count = { 6 };

    ghost value = { estimate };

    fn read(l: &[f32], k: usize) -> WindEstimate {
        WindEstimate {
            velocity_mps: Vec2::read(l, k),
            covariance_m2ps2: Matrix2 {
                m00: l[k + 2],
                m01: l[k + 3],
                m10: l[k + 4],
                m11: l[k + 5],
            },
        }
    }
}

impl Numbers for Leg {
    ghost count = { 4 };

    ghost value = { leg };

    fn read(l: &[f32], k: usize) -> Leg {
        Leg {
            to_m: Vec2::read(l, k),
            bearing_rad: given(l, k + 2),
        }
    }
}

// The value after the flag that stands at a place.
#[tactic(auto, using(crate::proofs::Flags::given_by_flag))]
pub fn given<T: Numbers>(l: &[f32], k: usize) -> Option<T>
    requires { k + T.count < length l.now }
    ensures { result ≡ given_from T.value l.now k }
{
    (l[k] != 0.0).then_some(T::read(l, k + 1))
}

// A value's flag, and the value.
#[derive(Clone, Copy)]
pub struct Held<T> {
    pub flag: f32,
    pub value: T,
}

impl<T: Copy> Held<T> {
    // `missing` stands in the value's place where there is none. It is handed in, since a clause of `Default`
    // says what holds of a value, and not which it is.
    #[tactic(auto, using(crate::proofs::Flags::held_by_parts))]
    pub fn of(value: Option<T>, missing: T) -> Held<T>
        ensures { result ≡ held value missing }
    {
        Held {
            flag: f32::from(value.is_some()),
            value: value.unwrap_or(missing),
        }
    }
}
