// The words of the guidance's own types: each field in turn.
ghost use Rattle.words.specs.Types as types;
ghost use Rattle.math.specs.Vectors.{zeros};

use crate::{Blank, Words};
use buffers::Sink;
use heading::hover_wind::HoverWind;
use heading::leg_heading::{Leg, LegHeading};
use heading::wind_heading::WindHeading;
use lateral::LateralController;
use math::vectors::{Vec2, Vec3};
use wind::estimate::{Matrix2, WindEstimate};
use wind::sample::Sample;
use wind::window::Window;

impl Words for Vec2 {
    ghost bytes = { types.vec2 };

    fn put<S: Sink>(self, out: &mut S) {
        (self.x, self.y).put(out);
    }
}

impl Words for Vec3 {
    ghost bytes = { types.vec3 };

    fn put<S: Sink>(self, out: &mut S) {
        (self.x, self.y, self.z).put(out);
    }
}

impl Words for Matrix2 {
    ghost bytes = { types.matrix };

    fn put<S: Sink>(self, out: &mut S) {
        (self.m00, self.m01, self.m10, self.m11).put(out);
    }
}

impl Words for WindEstimate {
    ghost bytes = { types.estimate };

    fn put<S: Sink>(self, out: &mut S) {
        (self.velocity_mps, self.covariance_m2ps2).put(out);
    }
}

impl Words for Sample {
    ghost bytes = { types.sample };

    fn put<S: Sink>(self, out: &mut S) {
        let axes = (self.axis_x, self.axis_y);
        (
            self.specific_force_mps2,
            self.ground_along_mps,
            axes,
            self.axial_mps,
        )
            .put(out);
    }
}

impl Words for Window {
    ghost bytes = { types.window };

    fn put<S: Sink>(self, out: &mut S) {
        (self.elapsed_s, self.ticks, self.sums).put(out);
    }
}

impl Words for HoverWind {
    ghost bytes = { types.hover_wind };

    fn put<S: Sink>(self, out: &mut S) {
        (
            self.estimator.filter,
            self.estimator.window,
            self.ground_altitude_m,
        )
            .put(out);
    }
}

impl Words for WindHeading {
    ghost bytes = { types.wind_heading };

    fn put<S: Sink>(self, out: &mut S) {
        (self.side, self.target_rad, self.weighed).put(out);
    }
}

impl Words for Leg {
    ghost bytes = { types.leg };

    fn put<S: Sink>(self, out: &mut S) {
        (self.to_m, self.bearing_rad).put(out);
    }
}

impl Words for LegHeading {
    ghost bytes = { types.leg_heading };

    fn put<S: Sink>(self, out: &mut S) {
        (self.leg, self.stuck_s, self.yielding, self.wind).put(out);
    }
}

impl Words for LateralController {
    ghost bytes = { types.lateral };

    fn put<S: Sink>(self, out: &mut S) {
        (
            self.integrated_error,
            self.derivative.previous_error,
            self.shaped_velocity_mps,
            self.commanded_velocity_mps,
        )
            .put(out);
    }
}

impl Blank for Vec2 {
    ghost blank = { zeros };

    fn blank() -> Vec2 {
        Vec2::zeros()
    }
}

impl Blank for WindEstimate {
    ghost blank = { types.no_estimate };

    fn blank() -> WindEstimate {
        WindEstimate::default()
    }
}

impl Blank for Leg {
    ghost blank = { types.no_leg };

    fn blank() -> Leg {
        Leg::default()
    }
}
