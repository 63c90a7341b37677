// The float leaves under C names, for the drivers of tests/ and bench/, which are not in Rattle.
#![tactic(auto)]

ghost use Rattle.std.specs.Prelude.{◌≡◌, from_bits, to_bits};
ghost use Rattle.std.specs.Float.{binary32};
ghost use Rattle.floats.specs.Compare.{abs, signum};
ghost use Rattle.floats.specs.MinMax.{min, max, clamp};
ghost use Rattle.floats.specs.Narrow.{convert};
ghost use Rattle.floats.specs.Sqrt.{sqrt};
ghost use Rattle.floats.specs.SinCos.{sinf, cosf};
ghost use Rattle.floats.specs.Atan.{atanf, atan2f};

#[unsafe(no_mangle)]
pub extern "C" fn tarragonhoe_bits(bits: u32) -> u32
    ensures { result ≡ to_bits binary32 (from_bits binary32 bits) }
{
    floats::bits::to_bits(floats::bits::from_bits(bits))
}

#[unsafe(no_mangle)]
pub extern "C" fn tarragonhoe_narrow(x: f64) -> f32
    ensures { result ≡ convert binary32 x }
{
    floats::narrow::narrow(x)
}

#[unsafe(no_mangle)]
pub extern "C" fn tarragonhoe_abs(x: f32) -> f32
    ensures { result ≡ abs x }
{
    floats::compare::abs(x)
}

#[unsafe(no_mangle)]
pub extern "C" fn tarragonhoe_signum(x: f32) -> f32
    ensures { result ≡ signum x }
{
    floats::compare::signum(x)
}

#[unsafe(no_mangle)]
pub extern "C" fn tarragonhoe_min(x: f32, y: f32) -> f32
    ensures { result ≡ min x y }
{
    floats::minmax::min(x, y)
}

#[unsafe(no_mangle)]
pub extern "C" fn tarragonhoe_max(x: f32, y: f32) -> f32
    ensures { result ≡ max x y }
{
    floats::minmax::max(x, y)
}

#[unsafe(no_mangle)]
pub extern "C" fn tarragonhoe_clamp(x: f32, low: f32, high: f32) -> f32
    ensures { result ≡ clamp x low high }
{
    floats::minmax::clamp(x, low, high)
}

#[unsafe(no_mangle)]
pub extern "C" fn tarragonhoe_sqrtf(x: f32) -> f32
    ensures { result ≡ sqrt binary32 x }
{
    floats::sqrt::sqrtf(x)
}

#[unsafe(no_mangle)]
pub extern "C" fn tarragonhoe_sinf(x: f32) -> f32
    ensures { result ≡ sinf x }
{
    floats::sin_cos::sinf(x)
}

#[unsafe(no_mangle)]
pub extern "C" fn tarragonhoe_cosf(x: f32) -> f32
    ensures { result ≡ cosf x }
{
    floats::sin_cos::cosf(x)
}

#[unsafe(no_mangle)]
pub extern "C" fn tarragonhoe_atanf(x: f32) -> f32
    ensures { result ≡ atanf x }
{
    floats::atan::atanf(x)
}

#[unsafe(no_mangle)]
pub extern "C" fn tarragonhoe_atan2f(y: f32, x: f32) -> f32
    ensures { result ≡ atan2f y x }
{
    floats::atan::atan2f(y, x)
}
