// The numbers of the generator.
ghost use Rattle.std.specs.Prelude.{◌≡◌};
ghost use Rattle.record_model.specs.Numbers.{following};

const MULTIPLIER: u64 = 6_364_136_223_846_793_005;

const INCREMENT: u64 = 1_442_695_040_888_963_407;

/// The number that follows another one: it times 6,364,136,223,846,793,005, plus 1,442,695,040,888,963,407, modulo
/// 2^64.
/// (The linear congruential generator of Knuth's MMIX.)
pub fn next(x: u64) -> u64
    ensures { result ≡ following x }
{
    x.wrapping_mul(MULTIPLIER).wrapping_add(INCREMENT)
}
