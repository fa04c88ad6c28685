ghost use Rattle.std.specs.Prelude.{◌≡◌, ◌<◌};
ghost use Rattle.promise_spec.specs.Loads.{next_number, drawn};

const MULTIPLIER: u64 = 6_364_136_223_846_793_005;

const INCREMENT: u64 = 1_442_695_040_888_963_407;

/// The number after this one, by which the calls are drawn.
pub(crate) fn next_number(x: u64) -> u64
    ensures { result ≡ next_number x }
{
    x.wrapping_mul(MULTIPLIER).wrapping_add(INCREMENT)
}

/// What a number gives, below a bound.
pub(crate) fn drawn(x: u64, bound: u32) -> u32
    requires { 0 < bound }
    ensures value { result ≡ drawn x bound }
    ensures within { result < bound }
{
    (x / 2_147_483_648 / 4 % u64::from(bound)) as u32
}
