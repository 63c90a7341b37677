// The float leaves: what the layers above need of `f32` beyond its operators.
//
// Each exported function is total, and its contract is an equality, with a term made of the definitions of
// specs/ and of `lib.Ieee`'s. There is one NaN there, with no sign and no payload, and 7FC00000 is the
// pattern that it is written with.
#![tactic(auto)]

pub mod atan;
pub mod bits;
pub mod compare;
pub mod minmax;
pub mod narrow;
pub mod rem;
pub mod sin_cos;
pub mod sqrt;
