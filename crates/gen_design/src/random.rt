ghost use Rattle.std.specs.Prelude.{◌≡◌, ◌<◌, ◌^◌};
ghost use Rattle.gen_design.specs.Random.{drawn, given};

const MULTIPLIER: u128 = 6_364_136_223_846_793_005;

const INCREMENT: u128 = 1_442_695_040_888_963_407;

const MODULUS: u128 = 0x1_0000_0000_0000_0000;

/// The random number after a draw.
pub fn drawn(random: u64) -> u64
    ensures { result ≡ drawn random }
{
    ((u128::from(random) * MULTIPLIER + INCREMENT) % MODULUS) as u64
}

/// What the draw gives that led to a random number.
pub fn given(random: u64) -> u64
    ensures value { result ≡ given random }
    ensures small { result < 2 ^ 31 }
{
    random >> 33
}
