// An excess state, as far as every model has it: from g^E/(RT) and ln γ as jets to energies, with the questions ahead of
// a model and the finite tests behind it.
#![tactic(auto)]

ghost use Rattle.std.specs.Prelude.{◌≡◌, ◌&&◌};
ghost use Rattle.floats.specs.Vector.{at, places, zeros8};
ghost use Rattle.floats.specs.Outcome.{ok};
ghost use Rattle.outcome.specs.Refused.{outcome_of};
ghost use Rattle.thermo_types.specs.Composition.{all_finite};
ghost use Rattle.excess.specs.State.{state_with, finite_state, with_state};
ghost use Rattle.excess.specs.Answers.{Gives, energies_at, energies_finite};

use floats::Count;
use jet::Jet;
use outcome::Refusal;
use thermo_types::Temperature;

// g^E/RT; g^E and h^E in J/mol, s^E and c_p^E in J/(mol K).
#[derive(Clone, Copy)]
pub struct Energies {
    pub reduced: f64,
    pub gibbs: f64,
    pub enthalpy: f64,
    pub entropy: f64,
    pub heat_capacity: f64,
}

// R, J/(mol K).
const GAS_CONSTANT: f64 = 8.31446261815324;

// T is finite and positive (13), and the first n of x are mole fractions (15, 16, 18).
#[inline(always)]
pub fn with_state(t: Temperature, x: &[f64; 8], n: usize) -> Result<(), Refusal>
    ensures { outcome_of result ≡ with_state t.0 (at x.now) (places n) (ok tt) }
{
    if !floats::positive(t.value()) {
        return Err(Refusal::Temperature);
    }
    thermo_types::with_fractions(x, n)
}

#[tactic(auto, unfolding(crate::specs::Answers::energies_at, crate::specs::State::gibbs_of, crate::specs::State::enthalpy_of, crate::specs::State::entropy_of, crate::specs::State::heat_capacity_of))]
fn energies_at(e: Jet, t: f64) -> Energies
    ensures { result ≡ energies_at e t }
{
    let gibbs = GAS_CONSTANT * t * e.v;
    let enthalpy = -GAS_CONSTANT * t * t * e.d;
    Energies {
        reduced: e.v,
        gibbs,
        enthalpy,
        entropy: (enthalpy - gibbs) / t,
        heat_capacity: -GAS_CONSTANT * (2.0 * t * e.d + t * t * e.dd),
    }
}

#[tactic(auto, unfolding(crate::specs::Answers::energies_finite))]
fn energies_finite(e: Energies) -> bool
    ensures { result ≡ energies_finite e }
{
    floats::is_finite(e.gibbs)
        & floats::is_finite(e.enthalpy)
        & floats::is_finite(e.heat_capacity)
        & floats::is_finite(e.entropy)
}

// What the arrays of a refusal hold: 0.0 everywhere.
// Kept: here and in the models ln γ and slopes go into the caller's arrays. By value, in a struct with the energies, an activity
// of 2, 4 and 8 solvents takes 77, 130 and 333 ns for 47, 106 and 304 by NRTL, 95, 161 and 374 for 68, 134 and 347 by Wilson's
// equation (each `Result` of 168 bytes is a copy more), and no less where the struct is filled in place.
pub fn clear(values: &mut [f64; 8], slopes: &mut [f64; 8])
    ensures cleared_values { values.new ≡ zeros8 }
    ensures cleared_slopes { slopes.new ≡ zeros8 }
{
    *values = [0.0; 8];
    *slopes = [0.0; 8];
}

// The state of e = g^E/(RT) and of the ln γ and slopes in the arrays; 25 where an energy isn't finite.
#[inline(always)]
pub fn state(
    e: Jet,
    t: Temperature,
    values: &mut [f64; 8],
    slopes: &mut [f64; 8],
) -> Result<Energies, Refusal>
    ensures { Gives (state_with e t.0 values.old slopes.old) result values.new slopes.new }
{
    let r = energies_at(e, t.value());
    if !energies_finite(r) {
        clear(values, slopes);
        return Err(Refusal::ResultNotFinite);
    }
    Ok(r)
}

// Whether the first n of both are finite.
// Kept: a `for`: two tests to a turn, with no early way out.
#[inline(always)]
#[tactic(auto, unfolding(floats::specs::Fold::all_to))]
fn both_finite(values: &[f64; 8], slopes: &[f64; 8], m: Count) -> bool
    ensures { result ≡ (all_finite (at values.now) m.n && all_finite (at slopes.now) m.n) }
{
    let mut of_values = true;
    let mut of_slopes = true;
    for i in 0..m.n {
        of_values = of_values & floats::is_finite(values[i]);
        of_slopes = of_slopes & floats::is_finite(slopes[i]);
    }
    of_values & of_slopes
}

// The same where the first n ln γ and slopes are finite, else 25.
#[inline(always)]
#[tactic(auto, unfolding(crate::specs::State::finite_state, floats::specs::Outcome::need))]
pub fn finite_state(
    e: Jet,
    n: usize,
    t: Temperature,
    values: &mut [f64; 8],
    slopes: &mut [f64; 8],
) -> Result<Energies, Refusal>
    ensures { Gives (finite_state e (places n) t.0 values.old slopes.old) result values.new slopes.new }
{
    if !both_finite(values, slopes, Count::of(n)) {
        clear(values, slopes);
        return Err(Refusal::ResultNotFinite);
    }
    state(e, t, values, slopes)
}
