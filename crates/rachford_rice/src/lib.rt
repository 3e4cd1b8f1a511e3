// Rachford-Rice phase split for prescribed equilibrium ratios (rachford_rice.rs). K values are inputs, not results.
#![tactic(auto)]

ghost use Rattle.std.specs.Prelude.{◌≡◌, cond, ◌&&◌, Float};
ghost use Rattle.std.specs.Float.Ieee.{lt};
ghost use Rattle.floats.specs.Arithmetic.{◌⊕◌, ◌⊗◌, ◌⊘◌, ◌⊖◌, 0f, 1f, ½};
ghost use Rattle.floats.specs.Small.{is_finite, middle};
ghost use Rattle.floats.specs.Fold.{fold_to, active};
ghost use Rattle.floats.specs.Vector.{at, places, vec};
ghost use Rattle.floats.specs.Outcome.{ok, bind};
ghost use Rattle.outcome.specs.Refused.{outcome_of};
ghost use Rattle.rachford_rice.specs.Rachford.{outcome_number, turn_of, goes, residual_of, slope_of, k_max, k_min, validate, liquid_part, solution_at, iterate, between, negative, two_phase, one_phase, constrained};

use floats::Count;
use outcome::Refusal;
use std::hint::select_unpredictable;
use std::ops::ControlFlow;

// Constrained or negative: vapor fraction, residual |g(β)| and count of a split.
#[derive(Clone, Copy)]
pub enum RachfordRiceOutcome {
    LiquidOnly,
    VaporOnly,
    TwoPhase(f64, f64, u64),
}

impl RachfordRiceOutcome {
    // 1 liquid, 2 vapor, 3 both.
    pub fn number(self) -> u64
        ensures { result ≡ outcome_number self }
    {
        match self {
            RachfordRiceOutcome::LiquidOnly => 1,
            RachfordRiceOutcome::VaporOnly => 2,
            RachfordRiceOutcome::TwoPhase(..) => 3,
        }
    }
}

// The outcome, with the compositions beside it: zeros where there is one phase.
// Kept: arrays beside the enum, a rule of the project: docs/CHECKLIST.md, "Forms".
#[derive(Clone, Copy)]
pub struct RachfordRice {
    pub outcome: RachfordRiceOutcome,
    pub liquid: [f64; 8],
    pub vapor: [f64; 8],
}

// The bounds, and the β that the next turn starts from.
#[derive(Clone, Copy)]
struct Bracket {
    lo: f64,
    hi: f64,
    beta: f64,
}

// ---- validate

// The tests one after the other, where one of them is answered no.
#[cold]
#[inline(never)]
#[tactic(auto, unfolding(crate::specs::Rachford::validate, floats::specs::Outcome::need))]
fn first_wrong(z: &[f64; 8], k: &[f64; 8], n: usize) -> Result<(), Refusal>
    ensures { outcome_of result ≡ validate (at z.now) (at k.now) (places n) (ok tt) }
{
    if !(thermo_types::all_finite(z, n) & thermo_types::all_finite(k, n)) {
        return Err(Refusal::NotFinite);
    }
    if !thermo_types::none_negative(z, n) {
        return Err(Refusal::FractionNegative);
    }
    if !thermo_types::all_positive(k, n) {
        return Err(Refusal::KNotPositive);
    }
    if !thermo_types::sums_to_one(z, n) {
        return Err(Refusal::FractionSum);
    }
    Ok(())
}

// z and K are finite, z not negative, K positive, and z sums to 1: in one reading of each.
#[inline(always)]
fn validate(z: &[f64; 8], k: &[f64; 8], n: usize) -> Result<(), Refusal>
    ensures { outcome_of result ≡ validate (at z.now) (at k.now) (places n) (ok tt) }
{
    if thermo_types::are_fractions(z, n) && thermo_types::are_ratios(k, n) {
        return Ok(());
    }
    first_wrong(z, k, n)
}

// ---- answers

#[tactic(auto, unfolding(crate::specs::Rachford::one_phase))]
fn one_phase(outcome: RachfordRiceOutcome) -> RachfordRice
    ensures { result ≡ one_phase outcome }
{
    RachfordRice {
        outcome,
        liquid: [0.0; 8],
        vapor: [0.0; 8],
    }
}

// ---- the iteration

// Newton's value where it lies between the bounds, else their middle.
fn next_from(newton: f64, lo: f64, hi: f64) -> f64
    ensures { result ≡ cond (lt lo newton && lt newton hi && is_finite newton) newton (middle lo hi) }
{
    if newton > lo && newton < hi && floats::is_finite(newton) {
        newton
    } else {
        floats::middle(lo, hi)
    }
}

// One turn: the root where it is the last. The bounds are moved before the step, and a change of β by at most 4 ε max(|β|, 1)
// counts as none.
#[tactic(auto, unfolding(crate::specs::Rachford::turn_of, crate::specs::Rachford::goes))]
fn turn_from(g: f64, slope: f64, at: Bracket) -> ControlFlow<f64, Bracket>
    ensures { result ≡ goes g at.beta (turn_of g slope at.lo at.hi at.beta) }
{
    let beta = at.beta;
    let lo = select_unpredictable(g > 0.0, beta, at.lo);
    let hi = select_unpredictable(g > 0.0, at.hi, beta);
    let next = next_from(beta - g / slope, lo, hi);
    let least = floats::FOUR_EPSILON * floats::max(floats::abs(beta), 1.0);
    let small = floats::abs(next - beta) <= least;
    if g == 0.0 {
        return ControlFlow::Break(beta);
    }
    if small | (next == lo) | (next == hi) {
        return ControlFlow::Break(next);
    }
    ControlFlow::Continue(Bracket { lo, hi, beta: next })
}

// ---- a feed and its ratios

fn liquid_part(z: f64, k: f64, beta: f64) -> f64
    ensures { result ≡ cond (lt 0f z) (z ⊘ (1f ⊕ beta ⊗ (k ⊖ 1f))) 0f }
{
    if z > 0.0 {
        z / (1.0 + beta * (k - 1.0))
    } else {
        0.0
    }
}

// Feed fractions z and ratios K of the solvents that count.
#[derive(Clone, Copy)]
struct Feed<'a> {
    z: &'a [f64; 8],
    k: &'a [f64; 8],
    m: Count,
}

// Sums and choices are over positive feed fractions.
impl<'a> Feed<'a> {
    // g(β)
    fn residual(self, beta: f64) -> f64
        ensures { result ≡ residual_of (at self.entry.z.now) (at self.entry.k.now) self.entry.m.n beta }
    {
        let terms = (0..self.m.n).filter(|&i| self.z[i] > 0.0).map(|i| self.z[i] * (self.k[i] - 1.0)
            / (1.0 + beta * (self.k[i] - 1.0)));
        terms.fold(0.0, |s, term| s + term)
    }

    // g(β) and g'(β): the second negates its sum. 1 + β (K - 1) is worked out once for both.
    fn residual_and_slope(self, beta: f64) -> (f64, f64)
        ensures residual_value { result.0 ≡ residual_of (at self.entry.z.now) (at self.entry.k.now) self.entry.m.n beta }
        ensures slope_value { result.1 ≡ slope_of (at self.entry.z.now) (at self.entry.k.now) self.entry.m.n beta }
    {
        let terms = (0..self.m.n).filter(|&i| self.z[i] > 0.0).map(|i| {
            let (z, k) = (self.z[i], self.k[i]);
            let over = 1.0 + beta * (k - 1.0);
            (
                z * (k - 1.0) / over,
                z * ((k - 1.0) * (k - 1.0)) / (over * over),
            )
        });
        let (residual, squares) = terms.fold((0.0, 0.0), |s, term| (s.0 + term.0, s.1 + term.1));
        (residual, -squares)
    }

    // What `choose` makes of the K, one after the other from `first` on.
    fn k_chosen<F: Fn(f64, f64) -> f64>(self, choose: F, first: f64) -> f64
        requires { F.IsAlwaysCallable choose }
        ensures { (f : Float → Float → Float) → ((a b r : Float) → F.post choose a b r → r ≡ f a b) → result ≡ fold_to (active (at self.entry.z.now) (λ i s. f s (at self.entry.k.now i))) first self.entry.m.n }
    {
        let ratios = (0..self.m.n)
            .filter(|&i| self.z[i] > 0.0)
            .map(|i| self.k[i]);
        ratios.fold(first, |s, k| choose(s, k))
    }

    fn k_max(self) -> f64
        ensures { result ≡ k_max (at self.entry.z.now) (at self.entry.k.now) self.entry.m.n }
    {
        self.k_chosen(floats::max, f64::NEG_INFINITY)
    }

    fn k_min(self) -> f64
        ensures { result ≡ k_min (at self.entry.z.now) (at self.entry.k.now) self.entry.m.n }
    {
        self.k_chosen(floats::min, f64::INFINITY)
    }

    fn liquid_parts(self, beta: f64) -> [f64; 8]
        ensures { result ≡ vec (liquid_part (at self.entry.z.now) (at self.entry.k.now) self.entry.m.n beta) self.entry.m.n }
    {
        std::array::from_fn(|i| {
            if i < self.m.n {
                liquid_part(self.z[i], self.k[i], beta)
            } else {
                0.0
            }
        })
    }

    // From the liquid that is not yet divided by its sum.
    fn vapor_parts(self, x: &[f64; 8]) -> [f64; 8]
        ensures { result ≡ vec (λ i. at x.now i ⊗ at self.entry.k.now i) self.entry.m.n }
    {
        std::array::from_fn(|i| if i < self.m.n { x[i] * self.k[i] } else { 0.0 })
    }

    // Kept: inlined, as are `iterate` and `between`: else a result of 160 bytes is copied by calls of memcpy from one to the next,
    // and a single phase takes 35 ns for 7.
    #[inline(always)]
    fn solution(self, beta: f64, iterations: u64) -> RachfordRice
        ensures { result ≡ two_phase (solution_at (at self.entry.z.now) (at self.entry.k.now) self.entry.m.n beta iterations) }
    {
        let x = self.liquid_parts(beta);
        let y = self.vapor_parts(&x);
        let residual = floats::abs(self.residual(beta));
        RachfordRice {
            outcome: RachfordRiceOutcome::TwoPhase(beta, residual, iterations),
            liquid: thermo_types::shares(&x, self.m.n),
            vapor: thermo_types::shares(&y, self.m.n),
        }
    }

    // From β = 0.5 between the bounds; refused where g(β) isn't finite, and where no turn is left.
    #[inline(always)]
    fn iterate(self, limit: u64, lo: f64, hi: f64) -> Result<RachfordRice, Refusal>
        ensures { outcome_of result ≡ bind (iterate (at self.entry.z.now) (at self.entry.k.now) self.entry.m.n limit 0 lo hi ½) (λ s. ok (two_phase s)) }
    {
        let mut at = Bracket { lo, hi, beta: 0.5 };
        for done in 0..limit {
            let (residual, slope) = self.residual_and_slope(at.beta);
            if !floats::is_finite(residual) {
                return Err(Refusal::ResultNotFinite);
            }
            match turn_from(residual, slope, at) {
                ControlFlow::Break(root) => return Ok(self.solution(root, done + 1)),
                ControlFlow::Continue(next) => at = next,
            }
        }
        Err(Refusal::NotConverged)
    }

    // Between the poles 1 / (1 - Kmax) and 1 / (1 - Kmin); refused where K lies on one side of 1.
    #[inline(always)]
    #[tactic(auto, unfolding(crate::specs::Rachford::between, floats::specs::Outcome::need, floats::specs::Outcome::bind))]
    fn between(self, limit: u64) -> Result<RachfordRice, Refusal>
        ensures { outcome_of result ≡ bind (between (at self.entry.z.now) (at self.entry.k.now) self.entry.m.n limit) (λ s. ok (two_phase s)) }
    {
        let largest = self.k_max();
        if largest <= 1.0 {
            return Err(Refusal::KOneSided);
        }
        let smallest = self.k_min();
        if smallest >= 1.0 {
            return Err(Refusal::KOneSided);
        }
        self.iterate(limit, 1.0 / (1.0 - largest), 1.0 / (1.0 - smallest))
    }
}

// ---- what other crates call
// Kept: `validate`, then the feed, twice: a constructor would say in its contract what the three fields are, and be longer.

// g(β) = 0 between the poles, so that β may lie outside [0, 1].
pub fn rachford_rice_negative(
    z: &[f64; 8],
    k: &[f64; 8],
    n: usize,
    max_iterations: u64,
) -> Result<RachfordRice, Refusal>
    ensures { outcome_of result ≡ bind (negative (at z.now) (at k.now) (places n) max_iterations) (λ s. ok (two_phase s)) }
{
    validate(z, k, n)?;
    let feed = Feed {
        z,
        k,
        m: Count::of(n),
    };
    feed.between(max_iterations)
}

// Constrained to 0 ≤ β ≤ 1: the single phases from g(0) and g(1), otherwise two phases.
pub fn rachford_rice(
    z: &[f64; 8],
    k: &[f64; 8],
    n: usize,
    max_iterations: u64,
) -> Result<RachfordRice, Refusal>
    ensures { outcome_of result ≡ constrained (at z.now) (at k.now) (places n) max_iterations }
{
    validate(z, k, n)?;
    let feed = Feed {
        z,
        k,
        m: Count::of(n),
    };
    if feed.residual(0.0) <= 0.0 {
        return Ok(one_phase(RachfordRiceOutcome::LiquidOnly));
    }
    if feed.residual(1.0) >= 0.0 {
        return Ok(one_phase(RachfordRiceOutcome::VaporOnly));
    }
    feed.between(max_iterations)
}
