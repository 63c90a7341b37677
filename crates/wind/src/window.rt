// The estimator: samples are averaged over a window of 0.2 s before each update.
ghost use Rattle.std.specs.Prelude.{◌≡◌};
ghost use Rattle.wind.specs.Wind.{empty, fresh, grown, mean, axis_corrected, closed, gathered, update};
ghost use Rattle.wind.specs.Inner.{noise_by_slope};

use crate::drag::{AxisDrag, WindConfig};
use crate::estimate::WindEstimate;
use crate::sample::Sample;
use crate::state::VehicleState;
use math::vectors::Vec2;

// Seconds that the samples are averaged over before each update.
pub const UPDATE_PERIOD_S: f32 = 0.2;

// Least drag slope, in 1/s, that an axis's noise is divided by.
const MIN_DRAG_SLOPE_PER_S: f32 = 0.001;

// The sums over the samples taken since the last window closed.
#[derive(Clone, Copy, Default)]
pub struct Window {
    pub elapsed_s: f32,
    pub ticks: u32,
    pub sums: Sample,
}

// The filter's estimate, none before the first window has closed, and the present window.
#[derive(Clone, Copy, Default)]
pub struct WindEstimator {
    pub filter: Option<WindEstimate>,
    pub window: Window,
}

impl Window {
    #[tactic(auto, unfolding(crate::specs::Wind::empty))]
    pub fn empty() -> Window
        ensures { result ≡ empty }
    {
        Window::default()
    }

    // With one sample more.
    #[tactic(auto, unfolding(crate::specs::Wind::grown))]
    pub fn grown(self, dt: f32, sample: Sample) -> Window
        ensures { result ≡ grown self dt sample }
    {
        Window {
            elapsed_s: self.elapsed_s + dt,
            ticks: self.ticks.wrapping_add(1),
            sums: self.sums + sample,
        }
    }

    // The mean of the samples.
    #[tactic(auto, unfolding(crate::specs::Wind::mean))]
    fn mean(self) -> Sample
        ensures { result ≡ mean self }
    {
        self.sums / std::num::nearest_u32_to_f32(self.ticks)
    }
}

impl WindEstimator {
    #[tactic(auto, unfolding(crate::specs::Wind::fresh, crate::specs::Wind::empty))]
    pub fn new() -> WindEstimator
        ensures { result ≡ fresh }
    {
        WindEstimator::default()
    }

    // Takes in the state of one call. With no drag coefficient, or where the state gives no sample,
    // nothing changes. Of a call's configuration it is handed the wind's part alone, so that the three are no
    // struct.
    #[tactic(auto, unfolding(crate::specs::Wind::update, crate::specs::Wind::taken))]
    pub fn update(self, dt: f32, config: WindConfig, state: VehicleState) -> WindEstimator
        ensures { result ≡ update self dt config state }
    {
        if config.is_on()
            && let Some(sample) = Sample::from_state(state, config.max_axial_speed_mps)
        {
            return self.gathered(dt, config, sample);
        }
        self
    }

    // With one sample more. The window closes once it is long enough.
    #[tactic(auto, unfolding(crate::specs::Wind::gathered))]
    fn gathered(self, dt: f32, config: WindConfig, sample: Sample) -> WindEstimator
        ensures { result ≡ gathered self dt config sample }
    {
        let window = self.window.grown(dt, sample);
        if window.elapsed_s < UPDATE_PERIOD_S {
            return WindEstimator { window, ..self };
        }
        WindEstimator {
            filter: Some(closed(self.filter, config, window)),
            window: Window::empty(),
        }
    }

    // The wind, once a window has closed.
    pub fn estimate(self) -> Option<WindEstimate>
        ensures { result ≡ self.filter }
    {
        self.filter
    }
}

// The estimate after a window, one axis after the other: from the estimate so far, or the initial one.
#[tactic(auto, unfolding(crate::specs::Wind::closed, crate::specs::Wind::filter_or))]
fn closed(filter: Option<WindEstimate>, config: WindConfig, window: Window) -> WindEstimate
    ensures { result ≡ closed filter config window }
{
    let mean = window.mean();
    let measured = |force_mps2: f32, ground_mps: f32| Measured {
        force_mps2,
        ground_mps,
        axial_mps: mean.axial_mps,
    };
    let predicted = filter
        .unwrap_or_else(|| WindEstimate::initial(config))
        .predict(window.elapsed_s, config);
    let along_x = axis_corrected(
        predicted,
        config,
        config.along_x(),
        mean.axis_x,
        measured(mean.specific_force_mps2.x, mean.ground_along_mps.x),
    );
    axis_corrected(
        along_x,
        config,
        config.along_y(),
        mean.axis_y,
        measured(mean.specific_force_mps2.y, mean.ground_along_mps.y),
    )
}

// A window's means along one axis.
#[derive(Clone, Copy)]
pub struct Measured {
    pub force_mps2: f32,
    pub ground_mps: f32,
    pub axial_mps: f32,
}

// The estimate corrected by the air velocity that the force along an axis tells.
#[tactic(auto, using(crate::proofs::Laws::Drag::none_handed_on), unfolding(crate::specs::Wind::axis_corrected))]
fn axis_corrected(
    estimate: WindEstimate,
    config: WindConfig,
    drag: AxisDrag,
    axis: Vec2,
    mean: Measured,
) -> WindEstimate
    ensures { result ≡ axis_corrected estimate config drag axis mean }
{
    let Some(air) = drag.air_velocity(mean.force_mps2, mean.axial_mps) else {
        return estimate;
    };
    let predicted_air_mps = mean.ground_mps - axis.dot(estimate.velocity_mps);
    let noise_mps = noise(
        config.force_noise_mps2,
        drag,
        predicted_air_mps,
        air.slope_per_s,
        mean.axial_mps,
    );
    estimate.correct(
        axis,
        mean.ground_mps - air.along_mps,
        noise_mps * noise_mps,
        config.gate_sigma,
    )
}

// The noise of the wind along an axis, in m/s: the force's over the drag's slope, the steeper of that
// at the air velocity that the estimate predicts and `slope_per_s`, that at the measured one.
#[tactic(auto, unfolding(crate::specs::Inner::noise_by_slope))]
fn noise(
    force_noise_mps2: f32,
    drag: AxisDrag,
    predicted_air_mps: f32,
    slope_per_s: f32,
    axial_mps: f32,
) -> f32
    ensures { result ≡ noise_by_slope force_noise_mps2 drag predicted_air_mps slope_per_s axial_mps }
{
    let steeper_per_s = floats::minmax::max(
        drag.slope_per_s(predicted_air_mps, axial_mps),
        slope_per_s,
    );
    force_noise_mps2 / floats::minmax::max(steeper_per_s, MIN_DRAG_SLOPE_PER_S)
}
