// Typed quantities and mole fractions (thermo-types). Each function equals its definition in specs/.
#![tactic(auto)]

ghost use Rattle.std.specs.Prelude.{◌≡◌, ◌&&◌};
ghost use Rattle.floats.specs.Arithmetic.{◌⊘◌};
ghost use Rattle.floats.specs.Fold.{sum_to};
ghost use Rattle.floats.specs.Vector.{at, vec, places};
ghost use Rattle.floats.specs.Outcome.{ok};
ghost use Rattle.outcome.specs.Refused.{number, outcome_of};
ghost use Rattle.thermo_types.specs.Quantities.{positive_of, temperature_of, pressure_of};
ghost use Rattle.thermo_types.specs.Composition.{sum_tolerance, all_finite, none_negative, all_positive, sums_to_one, with_fractions, shares_of, normalize_of};

use outcome::Refusal;

// Kelvin. The field is private: `new` alone makes one.
// Kept: two types of one text, so that neither can stand for the other; one over a unit would want a type for each unit too.
#[derive(Clone, Copy)]
pub struct Temperature(f64);

// Pascals. The field is private: `new` alone makes one.
#[derive(Clone, Copy)]
pub struct Pressure(f64);

// What the solvers iterate with: limits, the tolerance of ln fugacities, the threshold of tm below which a liquid is
// unstable, the bracket in K.
#[derive(Clone, Copy)]
pub struct ActivityOptions {
    pub max_iterations: u64,
    pub tolerance: f64,
    pub max_temperature_iterations: u64,
    pub tm_threshold: f64,
    pub minimum_temperature_k: f64,
    pub maximum_temperature_k: f64,
}

// ACTIVITY_TEMPERATURE_RANGE_K, in K.
pub const LOWEST_KELVIN: f64 = 273.16;

pub const HIGHEST_KELVIN: f64 = 450.0;

// COMPOSITION_SUM_TOLERANCE.
const SUM_TOLERANCE: f64 = 1e-10;

// A finite positive number, else this refusal.
#[tactic(auto, unfolding(crate::specs::Quantities::positive_of, floats::specs::Small::positive, floats::specs::Outcome::need))]
fn positive(v: f64, refusal: Refusal) -> Result<f64, Refusal>
    ensures { outcome_of result ≡ positive_of v (number refusal) }
{
    if floats::positive(v) {
        Ok(v)
    } else {
        Err(refusal)
    }
}

impl Temperature {
    #[tactic(auto, unfolding(floats::specs::Outcome::bind))]
    pub fn new(v: f64) -> Result<Temperature, Refusal>
        ensures { outcome_of result ≡ temperature_of v }
    {
        Ok(Temperature(positive(v, Refusal::Temperature)?))
    }

    pub fn value(self) -> f64
        ensures { result ≡ self.0 }
    {
        self.0 // K
    }
}

impl Pressure {
    #[tactic(auto, unfolding(floats::specs::Outcome::bind))]
    pub fn new(v: f64) -> Result<Pressure, Refusal>
        ensures { outcome_of result ≡ pressure_of v }
    {
        Ok(Pressure(positive(v, Refusal::Pressure)?))
    }

    pub fn value(self) -> f64
        ensures { result ≡ self.0 }
    {
        self.0 // Pa
    }
}

// ---- tests of the first n entries

// Neither infinite nor a NaN.
pub fn all_finite(x: &[f64; 8], n: usize) -> bool
    ensures { result ≡ all_finite (at x.now) (places n) }
{
    (0..floats::places(n)).all(|i| floats::is_finite(x[i]))
}

// -0.0 is not negative, and a NaN passes here.
pub fn none_negative(x: &[f64; 8], n: usize) -> bool
    ensures { result ≡ none_negative (at x.now) (places n) }
{
    (0..floats::places(n)).all(|i| !(x[i] < 0.0))
}

// A NaN is not positive.
pub fn all_positive(x: &[f64; 8], n: usize) -> bool
    ensures { result ≡ all_positive (at x.now) (places n) }
{
    (0..floats::places(n)).all(|i| 0.0 < x[i])
}

// The sum of the first n entries in index order, from +0.
pub fn sum(x: &[f64; 8], n: usize) -> f64
    ensures { result ≡ sum_to (at x.now) (places n) }
{
    (0..floats::places(n)).fold(0.0, |s, i| s + x[i])
}

// |sum - 1| within the tolerance.
#[tactic(auto, unfolding(crate::specs::Composition::sums_to_one))]
pub fn sums_to_one(x: &[f64; 8], n: usize) -> bool
    ensures { result ≡ sums_to_one (at x.now) (places n) }
{
    !(floats::abs(sum(x, n) - 1.0) > SUM_TOLERANCE)
}

// Mole fractions that pass all three tests, in one reading: where one fails, which is first takes readings of their own.
#[inline(always)]
pub fn are_fractions(x: &[f64; 8], n: usize) -> bool
    ensures { result ≡ ((all_finite (at x.now) (places n) && none_negative (at x.now) (places n)) && sums_to_one (at x.now) (places n)) }
{
    let entries = 0..floats::places(n);
    let (sum, right) = entries.fold((0.0, true), |s, i| {
        let v = x[i];
        (s.0 + v, s.1 & (floats::is_finite(v) & !(v < 0.0)))
    });
    right & !(floats::abs(sum - 1.0) > SUM_TOLERANCE)
}

// K values that pass both tests, in one reading.
#[inline(always)]
pub fn are_ratios(k: &[f64; 8], n: usize) -> bool
    ensures { result ≡ (all_finite (at k.now) (places n) && all_positive (at k.now) (places n)) }
{
    let entries = 0..floats::places(n);
    entries.fold(true, |right, i| {
        right & (floats::is_finite(k[i]) & (0.0 < k[i]))
    })
}

// The three questions in turn.
#[cold]
#[inline(never)]
#[tactic(auto, unfolding(crate::specs::Composition::with_fractions, floats::specs::Outcome::need))]
fn asked_in_turn(x: &[f64; 8], n: usize) -> Result<(), Refusal>
    ensures { outcome_of result ≡ with_fractions (at x.now) (places n) (ok tt) }
{
    if !all_finite(x, n) {
        return Err(Refusal::NotFinite);
    }
    if !none_negative(x, n) {
        return Err(Refusal::FractionNegative);
    }
    if !sums_to_one(x, n) {
        return Err(Refusal::FractionSum);
    }
    Ok(())
}

// The first n mole fractions are finite, not negative and sum to 1 within 1e-10: asked in one reading, and in turn only where that
// fails.
pub fn with_fractions(x: &[f64; 8], n: usize) -> Result<(), Refusal>
    ensures { outcome_of result ≡ with_fractions (at x.now) (places n) (ok tt) }
{
    if are_fractions(x, n) {
        return Ok(());
    }
    asked_in_turn(x, n)
}

// Each of the first n entries over s; 0.0 past them.
// Kept: `from_fn` with this test stands in fifteen bodies: one function over a closure would require that it can be called.
pub fn divided(x: &[f64; 8], s: f64, n: usize) -> [f64; 8]
    ensures { result ≡ vec (λ i. at x.now i ⊘ s) (places n) }
{
    let m = floats::places(n);
    std::array::from_fn(|i| if i < m { x[i] / s } else { 0.0 })
}

// Each of the first n entries over their sum, whatever that is; 0.0 past them.
#[tactic(auto, unfolding(crate::specs::Composition::shares_of))]
pub fn shares(x: &[f64; 8], n: usize) -> [f64; 8]
    ensures { result ≡ shares_of (at x.now) (places n) }
{
    divided(x, sum(x, n), n)
}

// The shares of a sum that is finite and positive.
#[tactic(auto, unfolding(crate::specs::Composition::normalize_of, crate::specs::Composition::shares_of, floats::specs::Outcome::need))]
pub fn normalize(x: &[f64; 8], n: usize) -> Result<[f64; 8], Refusal>
    ensures { outcome_of result ≡ normalize_of (at x.now) (places n) }
{
    let s = sum(x, n);
    if !floats::positive(s) {
        return Err(Refusal::NotNormalizable);
    }
    Ok(divided(x, s, n))
}
