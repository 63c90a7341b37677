// Vectors of two and of three floats and the attitude's quaternion, in place of nalgebra's types. A
// sum of squares is read as x*x + y*y, left to right.
ghost use Rattle.std.specs.Prelude.{◌≡◌};
ghost use Rattle.math.specs.Vectors.{zeros, plus, minus, times, over, dot, dot3, norm, horizontal};

use std::ops::{Add, Div, Mul, Sub};

#[derive(Clone, Copy, PartialEq, Default)]
pub struct Vec2 {
    pub x: f32,
    pub y: f32,
}

#[derive(Clone, Copy)]
pub struct Vec3 {
    pub x: f32,
    pub y: f32,
    pub z: f32,
}

// An attitude, taken as given: nothing makes its length 1.
#[derive(Clone, Copy)]
pub struct Quaternion {
    pub w: f32,
    pub i: f32,
    pub j: f32,
    pub k: f32,
}

impl Vec2 {
    pub fn zeros() -> Vec2
        ensures { result ≡ zeros }
    {
        Vec2 { x: 0.0, y: 0.0 }
    }

    pub fn dot(self, other: Vec2) -> f32
        ensures { result ≡ dot self other }
    {
        self.x * other.x + self.y * other.y
    }

    // The length.
    pub fn norm(self) -> f32
        ensures { result ≡ norm self }
    {
        floats::sqrt::sqrtf(self.dot(self))
    }
}

impl Vec3 {
    // North and east, without the height.
    pub fn horizontal(self) -> Vec2
        ensures { result ≡ horizontal self }
    {
        Vec2 {
            x: self.x,
            y: self.y,
        }
    }

    pub fn dot(self, other: Vec3) -> f32
        ensures { result ≡ dot3 self other }
    {
        self.x * other.x + self.y * other.y + self.z * other.z
    }
}

impl Add for Vec2 {
    type Output = Vec2;

    ghost add_gives = { λ v w r. r ≡ plus v w };

    fn add(self, other: Vec2) -> Vec2 {
        Vec2 {
            x: self.x + other.x,
            y: self.y + other.y,
        }
    }
}

impl Sub for Vec2 {
    type Output = Vec2;

    ghost sub_gives = { λ v w r. r ≡ minus v w };

    fn sub(self, other: Vec2) -> Vec2 {
        Vec2 {
            x: self.x - other.x,
            y: self.y - other.y,
        }
    }
}

impl Mul<f32> for Vec2 {
    type Output = Vec2;

    ghost mul_gives = { λ v w r. r ≡ times v w };

    fn mul(self, factor: f32) -> Vec2 {
        Vec2 {
            x: self.x * factor,
            y: self.y * factor,
        }
    }
}

impl Div<f32> for Vec2 {
    type Output = Vec2;

    ghost div_gives = { λ v w r. r ≡ over v w };

    fn div(self, divisor: f32) -> Vec2 {
        Vec2 {
            x: self.x / divisor,
            y: self.y / divisor,
        }
    }
}
