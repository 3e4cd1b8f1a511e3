// Finite near-pure tangent-plane trials of a liquid (activity.rs): evidence, not proof, of its stability.
// Compositions are `[f64; 8]`, 0.0 past n; a solvent is named by its index in the book.
#![tactic(auto)]

ghost use Rattle.std.specs.Prelude.{◌≡◌, cond};
ghost use Rattle.std.specs.Float.Ieee.{lt};
ghost use Rattle.floats.specs.Arithmetic.{◌⊕◌, ◌⊘◌, 0f};
ghost use Rattle.floats.specs.Fold.{fold_to, active};
ghost use Rattle.floats.specs.Vector.{at, vec, places};
ghost use Rattle.floats.specs.Outcome.{ok, bind};
ghost use Rattle.outcome.specs.Refused.{outcome_by};
ghost use Rattle.counted.specs.Counted.{Counts};
ghost use Rattle.thermo_models.specs.Activity.{activity_by_reason};
ghost use Rattle.liquid_stability.specs.Stability.{present_count, tangent, others_in, start_of, distance_of, change_of, apart_of, next_of, unstable, no_trial, no_trials};
ghost use Rattle.liquid_stability.specs.Counted.{trial_counted, trials_counted, stability_counted};
ghost use Rattle.liquid_stability.specs.Steps.{amounts_of, TrialTurn};

use floats::Count;
use outcome::{Reason, Refusal};
use std::hint::select_unpredictable;
use std::ops::ControlFlow;
use thermo_models::Tabled;
use thermo_types::ActivityOptions;

// A trial that started near solvent `component` (its index in the book).
#[derive(Clone, Copy)]
pub struct LiquidStabilityTrial {
    pub component: usize,
    pub distance: f64,
    pub composition: [f64; 8],
    pub iterations: u64,
    pub trivial: bool,
}

impl LiquidStabilityTrial {
    #[tactic(auto, unfolding(crate::specs::Stability::unstable))]
    fn is_unstable(&self, threshold: f64) -> bool
        ensures { result ≡ unstable threshold self.now.distance self.now.trivial }
    {
        self.distance < threshold && !self.trivial
    }
}

// The first `count` of the eight trials are filled.
// Kept: an array and a count, for the definition has eight entries, and memory is fixed.
#[derive(Clone, Copy)]
pub struct LiquidStability {
    pub stable: bool,
    pub count: usize,
    pub trials: [LiquidStabilityTrial; 8],
}

// The tangent-plane distance tm, the largest change of ln W, and the largest distance of w from x.
#[derive(Clone, Copy)]
struct Measured {
    distance: f64,
    change: f64,
    apart: f64,
}

// How many of the first n fractions are positive.
pub fn present_count(x: &[f64; 8], n: usize) -> usize
    ensures { result ≡ present_count x.now (places n) }
{
    x[..floats::places(n)].iter().filter(|v| 0.0 < **v).count()
}

// ln γ of x; its slopes aren't used here.
#[tactic(auto, using(outcome::proofs::Exits::met_reason), unfolding(floats::specs::Outcome::bind))]
fn ln_gamma<E: Reason>(table: &[f64; 512], tabled: Tabled<E>, x: &[f64; 8]) -> Result<[f64; 8], E>
    ensures { outcome_by E.said result ≡ bind (activity_by_reason E.said table.now tabled x.now) (λ a. ok a.ln_gamma) }
{
    let activity = thermo_models::activity(table, tabled, x)?;
    Ok(activity.ln_gamma)
}

// An entry that no trial has filled.
#[tactic(auto, unfolding(crate::specs::Stability::no_trial, crate::specs::Stability::trial_with))]
pub fn no_trial() -> LiquidStabilityTrial
    ensures { result ≡ no_trial }
{
    LiquidStabilityTrial {
        component: 0,
        distance: 0.0,
        composition: [0.0; 8],
        iterations: 0,
        trivial: false,
    }
}

// Stable, before any trial.
#[tactic(auto, unfolding(crate::specs::Stability::no_trials))]
pub fn no_trials() -> LiquidStability
    ensures { result ≡ no_trials }
{
    LiquidStability {
        stable: true,
        count: 0,
        trials: [no_trial(); 8],
    }
}

// d_i = ln x_i + ln γ_i(x) of the solvents present.
fn tangent(x: &[f64; 8], lg: &[f64; 8], m: Count) -> [f64; 8]
    ensures { result ≡ tangent x.now lg.now m.n }
{
    std::array::from_fn(|i| {
        if i < m.n && x[i] > 0.0 {
            numerics::ln(x[i]) + lg[i]
        } else {
            0.0
        }
    })
}

// At the start this is shared by the solvents that the trial isn't near.
const START_REST: f64 = 0.001;

// A trial is back at the tested composition within this.
const TRIVIAL_DISTANCE: f64 = 1e-6;

// A trial has converged where ln W changes by at most this.
const LN_W_TOLERANCE: f64 = 1e-10;

// The liquid that is tested: its composition x, d of x, and how many solvents are present beside the one that a trial is near.
#[derive(Clone, Copy)]
struct Tested<'a> {
    table: &'a [f64; 512],
    m: Count,
    o: ActivityOptions,
    x: &'a [f64; 8],
    d: &'a [f64; 8],
    others: f64,
    ghost others_present: { others ≡ others_in x.now m.n },
}

impl<'a> Tested<'a> {
    // ln W at the start of the trial near solvent j.
    fn start(self, j: usize) -> [f64; 8]
        ensures { result ≡ start_of self.entry.x.now self.entry.m.n j }
    {
        let near = numerics::ln(1.0 - START_REST);
        let far = numerics::ln(START_REST / self.others);
        std::array::from_fn(|i| {
            if i < self.m.n {
                select_unpredictable(i == j, near, far)
            } else {
                0.0
            }
        })
    }

    // W_i = exp ln W_i of the solvents present.
    fn amounts(self, ln_w: &[f64; 8]) -> [f64; 8]
        ensures { result ≡ amounts_of self.entry.x.now ln_w.now self.entry.m.n }
    {
        let all = numerics::exps(ln_w, self.m.n);
        std::array::from_fn(|i| select_unpredictable(i < self.m.n && self.x[i] > 0.0, all[i], 0.0))
    }

    fn total(self, big: &[f64; 8]) -> f64
        ensures { result ≡ fold_to (active (at self.entry.x.now) (λ i s. s ⊕ at big.now i)) 0f self.entry.m.n }
    {
        let present = (0..self.m.n).filter(|&i| self.x[i] > 0.0).map(|i| big[i]);
        present.fold(0.0, |s, w| s + w)
    }

    // w_i = W_i / Σ W.
    fn composition(self, big: &[f64; 8], s: f64) -> [f64; 8]
        ensures { let l = self.entry in result ≡ vec (λ i. cond (lt 0f (at l.x.now i)) (at big.now i ⊘ s) 0f) l.m.n }
    {
        std::array::from_fn(|i| select_unpredictable(
            i < self.m.n && self.x[i] > 0.0,
            big[i] / s,
            0.0,
        ))
    }

    // tm = 1 + Σ W_i (ln W_i + ln γ_i(w) - d_i - 1), with the two largest differences.
    // Kept: a loop, which moves three numbers of a struct in place; a fold would hand on a tuple, and the struct be made of it.
    #[tactic(auto, unfolding(crate::specs::Stability::distance_of, crate::specs::Stability::change_of, crate::specs::Stability::apart_of, floats::specs::Fold::fold_to))]
    fn measure(self, ln_w: &[f64; 8], big: &[f64; 8], lg: &[f64; 8], w: &[f64; 8]) -> Measured
        requires { big.now ≡ amounts_of self.x.now ln_w.now self.m.n }
        ensures { let l = self.entry in
            (result.distance ≡ distance_of l.x.now ln_w.now lg.now l.d.now l.m.n) × (result.change ≡ change_of l.x.now ln_w.now lg.now l.d.now l.m.n) × (result.apart ≡ apart_of l.x.now w.now l.m.n) }
    {
        let mut measured = Measured {
            distance: 1.0,
            change: 0.0,
            apart: 0.0,
        };
        for i in 0..self.m.n {
            if self.x[i] > 0.0 {
                measured.distance += big[i] * (ln_w[i] + lg[i] - self.d[i] - 1.0);
                measured.change = floats::max(
                    measured.change,
                    floats::abs(self.d[i] - lg[i] - ln_w[i]),
                );
                measured.apart = floats::max(measured.apart, floats::abs(w[i] - self.x[i]));
            }
        }
        measured
    }

    // ln W_i = d_i - ln γ_i(w).
    fn next(self, lg: &[f64; 8]) -> [f64; 8]
        ensures { result ≡ next_of self.entry.d.now lg.now self.entry.m.n }
    {
        std::array::from_fn(|i| { if i < self.m.n { self.d[i] - lg[i] } else { 0.0 } })
    }

    // One turn of the trial near solvent j: the trial where it ends here, else the next ln W. The activity of w is asked for once.
    fn turn<E: Reason>(
        self,
        at: Tabled<E>,
        j: usize,
        iteration: u64,
        ln_w: &[f64; 8],
    ) -> Result<ControlFlow<LiquidStabilityTrial, [f64; 8]>, E>
        ensures { let l = self.entry in
            TrialTurn (activity_by_reason E.said l.table.now at) l.o.tm_threshold l.m.n l.x.now l.d.now j iteration ln_w.now (outcome_by E.said result) }
    {
        let big = self.amounts(ln_w);
        let s = self.total(&big);
        let w = self.composition(&big, s);
        let lg = ln_gamma(self.table, at, &w)?;
        let measured = self.measure(ln_w, &big, &lg, &w);
        if !floats::is_finite(measured.distance) {
            return Err(E::from(Refusal::ResultNotFinite));
        }
        let found = LiquidStabilityTrial {
            component: j,
            distance: measured.distance,
            composition: w,
            iterations: iteration,
            trivial: measured.apart <= TRIVIAL_DISTANCE,
        };
        if found.is_unstable(self.o.tm_threshold) || measured.change <= LN_W_TOLERANCE {
            return Ok(ControlFlow::Break(found));
        }
        Ok(ControlFlow::Continue(self.next(&lg)))
    }

    // The trial near solvent j: 24, 25, and 27 at its limit.
    #[tactic(auto, unfolding(floats::specs::Outcome::bind, crate::specs::Steps::after))]
    fn trial<E: Reason>(
        self,
        at: Tabled<E>,
        j: usize,
        begun: &mut u64,
    ) -> Result<LiquidStabilityTrial, E>
        ensures { let l = self.entry in
            Counts begun.old (outcome_by E.said result) begun.new
            (trial_counted (activity_by_reason E.said l.table.now at) l.o.tm_threshold l.m.n l.x.now l.d.now j l.o.max_iterations 0 (start_of l.x.now l.m.n j)) }
    {
        let mut ln_w = self.start(j);
        for done in 0..self.o.max_iterations {
            counted::begin(begun);
            match self.turn(at, j, done + 1, &ln_w)? {
                ControlFlow::Break(found) => return Ok(found),
                ControlFlow::Continue(next) => ln_w = next,
            }
        }
        Err(E::from(Refusal::NotConverged))
    }

    // One trial near each solvent present. All of them run: a later trial's refusal stands before an unstable one's answer.
    #[tactic(auto, unfolding(crate::specs::Stability::no_trials, crate::specs::Stability::trials_to, crate::specs::Stability::with_trial))]
    fn trials<E: Reason>(self, at: Tabled<E>, begun: &mut u64) -> Result<LiquidStability, E>
        ensures { let l = self.entry in Counts begun.old (outcome_by E.said result) begun.new (trials_counted (activity_by_reason E.said l.table.now at) l.m.n l.o l.x.now l.d.now l.m.n) }
    {
        let mut all = no_trials();
        for j in 0..self.m.n {
            if self.x[j] > 0.0 {
                let found = self.trial(at, j, begun)?;
                all.trials[all.count] = found;
                all.count += 1;
                all.stable &= !found.is_unstable(self.o.tm_threshold);
            }
        }
        Ok(all)
    }
}

// Trials of the liquid x, one near each solvent present: 24, 25, 27. The activity of x (24, 25) stands before the question how many
// solvents are present; fewer than two: stable, no trials. `begun` counts the evaluations on.
pub fn liquid_stability<E: Reason>(
    table: &[f64; 512],
    at: Tabled<E>,
    o: ActivityOptions,
    x: &[f64; 8],
    begun: &mut u64,
) -> Result<LiquidStability, E>
    ensures { Counts begun.old (outcome_by E.said result) begun.new (stability_counted (activity_by_reason E.said table.now at) (places at.n) o x.now) }
{
    let m = Count::of(at.n);
    counted::begin(begun);
    let lg = ln_gamma(table, at, x)?;
    let count = present_count(x, at.n);
    if count < 2 {
        return Ok(no_trials());
    }
    let d = tangent(x, &lg, m);
    let others = (count - 1) as f64;
    let tested = Tested {
        table,
        m,
        o,
        x,
        d: &d,
        others,
    };
    tested.trials(at, begun)
}
