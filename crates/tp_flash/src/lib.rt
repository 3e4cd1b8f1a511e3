// Isothermal-isobaric gamma-phi flash (activity.rs): at most one liquid. Compositions are arrays of eight, of which
// the first n are read.
#![tactic(auto)]

ghost use Rattle.std.specs.Prelude.{◌≡◌, IfOk};
ghost use Rattle.floats.specs.Vector.{at, vec, places};
ghost use Rattle.floats.specs.Outcome.{ok, bind};
ghost use Rattle.outcome.specs.Refused.{outcome_of, outcome_by};
ghost use Rattle.counted.specs.Counted.{Counts, evaluated};
ghost use Rattle.numerics.specs.Numerics.{ln_of};
ghost use Rattle.thermo_models.specs.Activity.{activity_on, activity_by_reason};
ghost use Rattle.tp_flash.specs.Split.{k_values, phase_of, split_gap, balance_of, fraction_in, turn_at};
ghost use Rattle.tp_flash.specs.Tp.{inside, near_edge, single_phase, as_vapor};
ghost use Rattle.tp_flash.specs.Counted.{split_turn_counted, split_counted, stable_counted, dew_of_counted, liquid_counted, both_counted, boundary_counted, from_split_counted, split_feed_counted, between_counted, saturated_counted, phases_counted};

use liquid_stability::LiquidStability;
use outcome::{Reason, Refusal};
use rachford_rice::RachfordRiceOutcome;
use std::hint::select_unpredictable;
use thermo_models::{ActivityCoefficients, Tabled};
use thermo_types::{ActivityOptions, Pressure};

#[derive(Clone, Copy)]
pub enum FlashPhases {
    Liquid = 1,
    Vapor,
    Both,
}

// Pressures in Pa. `trials` are those of the liquid; a vapor has none.
#[derive(Clone, Copy)]
pub struct ActivityTpFlash {
    pub phases: FlashPhases,
    pub bubble: f64,
    pub dew: f64,
    pub iterations: u64,
    pub residual: f64,
    pub balance: f64,
    pub vapor_fraction: f64,
    pub notes: u64,
    pub liquid: [f64; 8],
    pub vapor: [f64; 8],
    pub trials: Option<LiquidStability>,
}

// Bubble and dew pressure of the feed, Pa.
#[derive(Clone, Copy)]
pub struct Saturated {
    pub bubble: f64,
    pub dew: f64,
}

// The word `notes` of the answer: A7-GAMMA-PHI is bit 0, A7-SPLIT-AT-SATURATION-BOUNDARY bit 1, A7-LIQUID-TPD-FINITE-TRIALS bit 2.
// Kept: numbers, for they are that word itself, and the definitions have it as a number.
const GAMMA_PHI: u64 = 1;

const AT_BOUNDARY: u64 = 1 + 2;

const FINITE_TRIALS: u64 = 1 + 4;

// A converged split: vapor fraction, both phases, the largest gap of ln fugacities.
#[derive(Clone, Copy)]
struct SplitPoint {
    vapor_fraction: f64,
    liquid: [f64; 8],
    vapor: [f64; 8],
    residual: f64,
    iterations: u64,
}

// A turn's split, and the activity at its liquid.
#[derive(Clone, Copy)]
struct SplitTurn {
    split: SplitPoint,
    activity: ActivityCoefficients,
}

// RACHFORD_RICE_MAX_ITERATIONS, whatever the options say.
const RACHFORD_RICE_MAX_ITERATIONS: u64 = 200;

fn vapor_fraction(outcome: RachfordRiceOutcome) -> f64
    ensures { result ≡ fraction_in outcome }
{
    match outcome {
        RachfordRiceOutcome::LiquidOnly => 0.0,
        RachfordRiceOutcome::VaporOnly => 1.0,
        RachfordRiceOutcome::TwoPhase(beta, _, _) => beta,
    }
}

// A vapor fraction inside (0, 1).
#[tactic(auto, unfolding(crate::specs::Tp::inside))]
fn inside(beta: f64) -> bool
    ensures { result ≡ inside beta }
{
    beta > 0.0 && beta < 1.0
}

const SATURATION_BETA_ROUNDOFF: f64 = 1e-10;

// At 0 or at 1 but for rounding.
#[tactic(auto, unfolding(crate::specs::Tp::near_edge))]
fn near_edge(beta: f64) -> bool
    ensures { result ≡ near_edge beta }
{
    floats::abs(floats::min(beta, 1.0 - beta)) <= SATURATION_BETA_ROUNDOFF
}

// A single phase, without its composition and its trials.
fn single_phase(
    phases: FlashPhases,
    saturated: Saturated,
    vapor_fraction: f64,
    notes: u64,
) -> ActivityTpFlash
    ensures { result ≡ single_phase phases saturated vapor_fraction notes }
{
    ActivityTpFlash {
        phases,
        bubble: saturated.bubble,
        dew: saturated.dew,
        iterations: 0,
        residual: 0.0,
        balance: 0.0,
        vapor_fraction,
        notes,
        liquid: [0.0; 8],
        vapor: [0.0; 8],
        trials: None,
    }
}

// The feed z, with the vapor pressures ps of its solvents and the table of their activities, all at one temperature.
#[derive(Clone, Copy)]
struct Feed<'a> {
    table: &'a [f64; 512],
    at: Tabled,
    o: ActivityOptions,
    z: &'a [f64; 8],
    ps: &'a [f64; 8],
}

// A feed at T with what no pressure changes: bubble and dew pressure, and the activity at the feed.
#[derive(Clone, Copy)]
pub struct FlashFeed<'a> {
    feed: Feed<'a>,
    pub saturated: Saturated,
    activity: ActivityCoefficients,
    ghost of_feed: { activity_on feed.table.now feed.at feed.z.now ≡ ok activity },
}

// The split of a feed at T and p, with what no turn changes: ln of its vapor pressures, and ln p.
#[derive(Clone, Copy)]
struct Splitting<'a> {
    feed: Feed<'a>,
    p: Pressure,
    ln_ps: &'a [f64; 8],
    ln_p: f64,
    ghost of_pressures: { ln_ps.now ≡ vec (λ i. ln_of (at feed.ps.now i)) (places feed.at.n) },
    ghost of_p: { ln_p ≡ ln_of p.0 },
}

impl<'a> Splitting<'a> {
    // K_i = γ_i p_i^sat / p where the feed is positive, else 1.0, which no sum of Rachford-Rice reads.
    fn k_values(self, lg: &[f64; 8]) -> [f64; 8]
        ensures { let f = self.entry.feed in result ≡ k_values f.z.now f.ps.now self.entry.p.0 lg.now (places f.at.n) }
    {
        let n = floats::places(self.feed.at.n);
        let ln_k = std::array::from_fn(|i| {
            if i < n {
                lg[i] + self.ln_ps[i] - self.ln_p
            } else {
                0.0
            }
        });
        let k = numerics::exps(&ln_k, n);
        std::array::from_fn(|i| {
            if i < n {
                select_unpredictable(self.feed.z[i] > 0.0, k[i], 1.0)
            } else {
                0.0
            }
        })
    }

    // max_i |ln(y_i p) - ln(x_i γ_i p_i^sat)| where the feed is positive.
    fn split_gap(self, lg: &[f64; 8], x: &[f64; 8], y: &[f64; 8]) -> f64
        ensures { let f = self.entry.feed in result ≡ split_gap f.z.now lg.now f.ps.now self.entry.p.0 x.now y.now (places f.at.n) }
    {
        (0..floats::places(self.feed.at.n)).fold(0.0, |r, i| {
            if self.feed.z[i] > 0.0 {
                let (ln_y, ln_x) = numerics::ln_two(y[i], x[i]);
                floats::max(
                    r,
                    floats::abs(ln_y + self.ln_p - ln_x - lg[i] - self.ln_ps[i]),
                )
            } else {
                r
            }
        })
    }

    // The phases x and y of a solution of Rachford-Rice: the activity at x, and the gap (25).
    fn turn_at(
        self,
        beta: f64,
        x: [f64; 8],
        y: [f64; 8],
        iteration: u64,
        begun: &mut u64,
    ) -> Result<SplitTurn, Refusal>
        ensures { let f = self.entry.feed in
            Counts begun.old (outcome_of result) begun.new (evaluated (turn_at (activity_on f.table.now f.at) f.ps.now (places f.at.n) self.entry.p.0 f.z.now beta x y iteration)) }
    {
        counted::begin(begun);
        let activity = thermo_models::activity(self.feed.table, self.feed.at, &x)?;
        let residual = self.split_gap(&activity.ln_gamma, &x, &y);
        if !floats::is_finite(residual) {
            return Err(Refusal::ResultNotFinite);
        }
        Ok(SplitTurn {
            split: SplitPoint {
                vapor_fraction: beta,
                liquid: x,
                vapor: y,
                residual,
                iterations: iteration,
            },
            activity,
        })
    }

    // One turn from ln γ.
    fn split_turn(
        self,
        lg: &[f64; 8],
        iteration: u64,
        begun: &mut u64,
    ) -> Result<SplitTurn, Refusal>
        ensures { let f = self.entry.feed in
            Counts begun.old (outcome_of result) begun.new (split_turn_counted (activity_on f.table.now f.at) f.ps.now (places f.at.n) self.entry.p.0 f.z.now lg.now iteration) }
    {
        let k = self.k_values(lg);
        let rr = rachford_rice::rachford_rice_negative(
            self.feed.z,
            &k,
            self.feed.at.n,
            RACHFORD_RICE_MAX_ITERATIONS,
        )?;
        let x = self.feed.phase_of(&rr.liquid)?;
        let y = self.feed.phase_of(&rr.vapor)?;
        let beta = vapor_fraction(rr.outcome);
        self.turn_at(beta, x, y, iteration, begun)
    }

    // Successive substitution from ln γ of the feed, `start`; 27 where the turns are used up.
    fn split_from(self, start: &[f64; 8], begun: &mut u64) -> Result<SplitPoint, Refusal>
        ensures { let f = self.entry.feed in
            Counts begun.old (outcome_of result) begun.new
            (split_counted (activity_on f.table.now f.at) f.ps.now (places f.at.n) self.entry.p.0 f.z.now f.o.tolerance f.o.max_iterations 0 start.now) }
    {
        let mut lg = *start;
        for done in 0..self.feed.o.max_iterations {
            let turn = self.split_turn(&lg, done + 1, begun)?;
            if turn.split.residual <= self.feed.o.tolerance {
                return Ok(turn.split);
            }
            lg = turn.activity.ln_gamma;
        }
        Err(Refusal::NotConverged)
    }
}

impl<'a> Feed<'a> {
    // ---- the phases of a split

    // The entries of a phase where the feed is positive, over their sum (34).
    // Kept: `places(self.at.n)`, here and below: a Count beside `at` would want a ghost field that it is `places at.n`.
    fn phase_of(self, l: &[f64; 8]) -> Result<[f64; 8], Refusal>
        ensures { outcome_of result ≡ phase_of self.entry.z.now l.now (places self.entry.at.n) }
    {
        let n = floats::places(self.at.n);
        let w = std::array::from_fn(|i| select_unpredictable(i < n && self.z[i] > 0.0, l[i], 0.0));
        thermo_types::normalize(&w, self.at.n)
    }

    // max_i |β y_i + (1 - β) x_i - z_i|.
    fn balance(self, beta: f64, x: &[f64; 8], y: &[f64; 8]) -> f64
        ensures { result ≡ balance_of beta x.now y.now self.entry.z.now (places self.entry.at.n) }
    {
        (0..floats::places(self.at.n)).fold(0.0, |r, i| {
            floats::max(
                r,
                floats::abs(beta * y[i] + (1.0 - beta) * x[i] - self.z[i]),
            )
        })
    }

    // ---- the phases of the feed

    // The trials of a liquid: 29 where they find a split.
    fn stable_liquid(self, x: &[f64; 8], begun: &mut u64) -> Result<LiquidStability, Refusal>
        ensures { let f = self.entry in Counts begun.old (outcome_of result) begun.new (stable_counted (activity_on f.table.now f.at) (places f.at.n) f.o x.now) }
    {
        let trials = liquid_stability::liquid_stability(self.table, self.at, self.o, x, begun)?;
        if !trials.stable {
            return Err(Refusal::LiquidUnstable);
        }
        Ok(trials)
    }

    // The feed as one vapor: its fractions.
    #[tactic(auto, using(outcome::proofs::Exits::met, thermo_types::proofs::Passing::fractions_first), unfolding(crate::specs::Tp::as_vapor, floats::specs::Outcome::bind))]
    fn as_vapor(self, saturated: Saturated, notes: u64) -> Result<ActivityTpFlash, Refusal>
        ensures { outcome_of result ≡ as_vapor (places self.entry.at.n) self.entry.z.now saturated.bubble saturated.dew notes }
    {
        thermo_types::with_fractions(self.z, self.at.n)?;
        Ok(ActivityTpFlash {
            vapor: *self.z,
            ..single_phase(FlashPhases::Vapor, saturated, 1.0, notes)
        })
    }

    // The feed as one liquid: its trials (29), then its fractions.
    fn as_liquid(
        self,
        saturated: Saturated,
        notes: u64,
        begun: &mut u64,
    ) -> Result<ActivityTpFlash, Refusal>
        ensures { let f = self.entry in
            Counts begun.old (outcome_of result) begun.new (liquid_counted (activity_on f.table.now f.at) (places f.at.n) f.o f.z.now saturated.bubble saturated.dew notes) }
    {
        let trials = self.stable_liquid(self.z, begun)?;
        thermo_types::with_fractions(self.z, self.at.n)?;
        Ok(ActivityTpFlash {
            liquid: *self.z,
            trials: Some(trials),
            ..single_phase(FlashPhases::Liquid, saturated, 0.0, notes)
        })
    }

    // Both phases: the trials of the liquid (29), then the fractions of the vapor and of the liquid.
    fn as_both(
        self,
        saturated: Saturated,
        split: SplitPoint,
        begun: &mut u64,
    ) -> Result<ActivityTpFlash, Refusal>
        ensures { let f = self.entry in
            Counts begun.old (outcome_of result) begun.new (both_counted (activity_on f.table.now f.at) (places f.at.n) f.o f.z.now saturated.bubble saturated.dew split) }
    {
        let trials = self.stable_liquid(&split.liquid, begun)?;
        thermo_types::with_fractions(&split.vapor, self.at.n)?;
        thermo_types::with_fractions(&split.liquid, self.at.n)?;
        Ok(ActivityTpFlash {
            phases: FlashPhases::Both,
            bubble: saturated.bubble,
            dew: saturated.dew,
            iterations: split.iterations,
            residual: split.residual,
            balance: self.balance(split.vapor_fraction, &split.liquid, &split.vapor),
            vapor_fraction: split.vapor_fraction,
            notes: FINITE_TRIALS,
            liquid: split.liquid,
            vapor: split.vapor,
            trials: Some(trials),
        })
    }

    // The saturated single phase of a split at a boundary.
    fn at_boundary(
        self,
        saturated: Saturated,
        beta: f64,
        begun: &mut u64,
    ) -> Result<ActivityTpFlash, Refusal>
        ensures { let f = self.entry in
            Counts begun.old (outcome_of result) begun.new (boundary_counted (activity_on f.table.now f.at) (places f.at.n) f.o f.z.now saturated.bubble saturated.dew beta) }
    {
        if beta >= 1.0 {
            self.as_vapor(saturated, AT_BOUNDARY)
        } else {
            self.as_liquid(saturated, AT_BOUNDARY, begun)
        }
    }

    // A converged split: both phases, or the saturated single phase at a boundary; else 30.
    fn from_split(
        self,
        saturated: Saturated,
        split: SplitPoint,
        begun: &mut u64,
    ) -> Result<ActivityTpFlash, Refusal>
        ensures { let f = self.entry in
            Counts begun.old (outcome_of result) begun.new (from_split_counted (activity_on f.table.now f.at) (places f.at.n) f.o f.z.now saturated.bubble saturated.dew split) }
    {
        let beta = split.vapor_fraction;
        if inside(beta) {
            self.as_both(saturated, split, begun)
        } else if near_edge(beta) {
            self.at_boundary(saturated, beta, begun)
        } else {
            Err(Refusal::VaporFractionOutside)
        }
    }

    fn ln_pressures(self) -> [f64; 8]
        ensures { result ≡ vec (λ i. ln_of (at self.entry.ps.now i)) (places self.entry.at.n) }
    {
        let n = floats::places(self.at.n);
        std::array::from_fn(|i| if i < n { numerics::ln(self.ps[i]) } else { 0.0 })
    }

    // With one solvent present it is the bubble pressure.
    fn dew_pressure(self, bubble: f64, begun: &mut u64) -> Result<f64, Refusal>
        ensures { let f = self.entry in
            Counts begun.old (outcome_of result) begun.new (dew_of_counted (activity_on f.table.now f.at) (places f.at.n) f.o f.z.now f.ps.now bubble) }
    {
        if liquid_stability::present_count(self.z, self.at.n) == 1 {
            return Ok(bubble);
        }
        let d = saturation::dew_at(self.table, self.at, self.z, self.ps, self.o, begun)?;
        Ok(d.pressure)
    }
}

impl<'a> FlashFeed<'a> {
    // The split at p from the activity of the feed, which counts once more though it is there.
    fn split(self, p: Pressure, begun: &mut u64) -> Result<ActivityTpFlash, Refusal>
        ensures { let f = self.entry.feed in let s = self.entry.saturated in
            Counts begun.old (outcome_of result) begun.new (split_feed_counted (activity_on f.table.now f.at) (places f.at.n) f.o f.z.now p.0 f.ps.now s.bubble s.dew) }
    {
        counted::begin(begun);
        let ln_ps = self.feed.ln_pressures();
        let splitting = Splitting {
            feed: self.feed,
            p,
            ln_ps: &ln_ps,
            ln_p: numerics::ln(p.value()),
        };
        let split = splitting.split_from(&self.activity.ln_gamma, begun)?;
        self.feed.from_split(self.saturated, split, begun)
    }

    // The flash at p: p ≥ bubble is liquid, then p ≤ dew is vapor, else the split; what split and trials refuse. `begun` counts the
    // evaluations on.
    pub fn at(self, p: Pressure, begun: &mut u64) -> Result<ActivityTpFlash, Refusal>
        ensures { let f = self.entry.feed in let s = self.entry.saturated in
            Counts begun.old (outcome_of result) begun.new (between_counted (activity_on f.table.now f.at) (places f.at.n) f.o f.z.now p.0 f.ps.now s.bubble s.dew) }
    {
        let pressure = p.value();
        if pressure >= self.saturated.bubble {
            return self.feed.as_liquid(self.saturated, GAMMA_PHI, begun);
        }
        if pressure <= self.saturated.dew {
            return self.feed.as_vapor(self.saturated, GAMMA_PHI);
        }
        self.split(p, begun)
    }
}

// What the flash of the feed z has at every pressure, from the tables and the vapor pressures of a temperature: bubble and dew both;
// what they refuse (15 to 18, 24, 25, 27, 34). `begun` counts the evaluations on.
pub fn flash_feed<'a>(
    table: &'a [f64; 512],
    at: Tabled,
    o: ActivityOptions,
    z: &'a [f64; 8],
    ps: &'a [f64; 8],
    begun: &mut u64,
) -> Result<FlashFeed<'a>, Refusal>
    ensures saturated { Counts begun.old (bind (outcome_of result) (λ f. ok f.saturated)) begun.new (saturated_counted (activity_on table.now at) (places at.n) o z.now ps.now) }
    ensures feed { IfOk result (λ f. f.feed ≡ record { table = table.entry; at = at; o = o; z = z.entry; ps = ps.entry }) }
{
    counted::begin(begun);
    let activity = thermo_models::activity(table, at, z)?;
    let b = saturation::bubble_from(z, &activity.ln_gamma, ps, at.n)?;
    let feed = Feed {
        table,
        at,
        o,
        z,
        ps,
    };
    let dew = feed.dew_pressure(b.pressure, begun)?;
    Ok(FlashFeed {
        feed,
        saturated: Saturated {
            bubble: b.pressure,
            dew,
        },
        activity,
    })
}

// The flash of the feed z at p, from the tables and the vapor pressures of a temperature: bubble and dew both, then the phases; what
// bubble, dew, split and trials refuse (15 to 18, 24, 25, 27 to 30, 34). `begun` counts the evaluations on.
pub fn activity_tp_flash<E: Reason>(
    table: &[f64; 512],
    at: Tabled<E>,
    o: ActivityOptions,
    z: &[f64; 8],
    p: Pressure,
    ps: &[f64; 8],
    begun: &mut u64,
) -> Result<ActivityTpFlash, E>
    ensures { Counts begun.old (outcome_by E.said result) begun.new (phases_counted (activity_by_reason E.said table.now at) (places at.n) o z.now p.0 ps.now) }
{
    let settled = match at.settled(z) {
        Ok(settled) => settled,
        Err(reason) => {
            counted::begin(begun);
            return Err(reason);
        }
    };
    let feed = flash_feed(table, settled, o, z, ps, begun)?;
    Ok(feed.at(p, begun)?)
}
