// Bubble and dew points at a temperature (activity.rs): modified Raoult, y_i p = x_i γ_i p_i^sat, with the model's liquid and
// an ideal-gas vapor. Compositions and ln γ are arrays of eight, 0.0 past n; pressures in Pa, temperatures in K.
#![tactic(auto)]

ghost use Rattle.std.specs.Prelude.{◌≡◌, ℕ, Float};
ghost use Rattle.floats.specs.Arithmetic.{◌⊕◌, ◌⊖◌};
ghost use Rattle.floats.specs.Small.{abs_of};
ghost use Rattle.floats.specs.Vector.{at, vec, places};
ghost use Rattle.floats.specs.Outcome.{ok, bind};
ghost use Rattle.outcome.specs.Refused.{outcome_of, outcome_by};
ghost use Rattle.counted.specs.Counted.{uncounted, bind_counted, Counts};
ghost use Rattle.numerics.specs.Numerics.{exp_of, ln_of};
ghost use Rattle.thermo_models.specs.Activity.{activity_by_reason};
ghost use Rattle.saturation.specs.Saturation.{bubble_from, gap_of, residual_with, incipient, change_of, turned, bubble_task, dew_task};
ghost use Rattle.saturation.specs.Counted.{dew_turn_counted, dew_point_counted, dew_counted};

use floats::Count;
use outcome::{Reason, Refusal};
use thermo_models::{ActivityCoefficients, Tabled};
use thermo_types::ActivityOptions;

// Pressure in Pa and incipient vapor.
#[derive(Clone, Copy)]
pub struct BubblePoint {
    pub pressure: f64,
    pub vapor: [f64; 8],
}

// Pressure in Pa, and the incipient liquid.
#[derive(Clone, Copy)]
struct IncipientLiquid {
    pressure: f64,
    liquid: [f64; 8],
}

// One turn of the dew iteration: the largest change of ln γ, and the new ln γ.
#[derive(Clone, Copy)]
struct DewTurn {
    change: f64,
    ln_gamma: [f64; 8],
}

// A converged dew point at T: pressure (Pa), incipient liquid, and the activity at that liquid.
#[derive(Clone, Copy)]
pub struct DewPoint {
    pub pressure: f64,
    pub liquid: [f64; 8],
    pub activity: ActivityCoefficients,
    pub iterations: u64,
    pub residual: f64,
}

// Saturation point of the feed; the incipient phase has zero amount. K, Pa.
#[derive(Clone, Copy)]
pub struct ActivitySaturation {
    pub temperature: f64,
    pub pressure: f64,
    pub liquid: [f64; 8],
    pub vapor: [f64; 8],
    pub residual: f64,
    pub iterations: u64,
}

// ---- modified Raoult

// |ln(y_i p) - ln(x_i γ_i p_i^sat)| of one solvent; lg is its ln γ, ln_p is ln p.
pub fn gap(lg: f64, ps: f64, ln_p: f64, x: f64, y: f64) -> f64
    ensures { result ≡ abs_of (ln_of y ⊕ ln_p ⊖ ln_of x ⊖ lg ⊖ ln_of ps) }
{
    let (ln_y, ln_x) = numerics::ln_two(y, x);
    floats::abs(ln_y + ln_p - ln_x - lg - numerics::ln(ps))
}

// What modified Raoult has of a liquid: ln γ and the vapor pressures of its solvents.
#[derive(Clone, Copy)]
struct Raoult<'a> {
    lg: &'a [f64; 8],
    ps: &'a [f64; 8],
    m: Count,
}

impl Raoult<'_> {
    // f of each solvent's fraction, γ and vapor pressure; 0.0 past the solvents.
    fn terms<F: Fn(f64, f64, f64) -> f64>(self, z: &[f64; 8], f: F) -> [f64; 8]
        requires { F.IsAlwaysCallable f }
        ensures { (t : ℕ → Float)
            → ((k : ℕ) (r : Float) → F.post f (at z.now k) (exp_of (at self.entry.lg.now k)) (at self.entry.ps.now k) r → r ≡ t k)
            → result ≡ vec t self.entry.m.n }
    {
        let gamma = numerics::exps(self.lg, self.m.n);
        std::array::from_fn(|i| {
            if i < self.m.n {
                f(z[i], gamma[i], self.ps[i])
            } else {
                0.0
            }
        })
    }

    // The largest gap of a solvent that is present in both phases.
    fn largest_gap(self, p: f64, x: &[f64; 8], y: &[f64; 8]) -> f64
        ensures { let l = self.entry in result ≡ gap_of l.lg.now l.ps.now p x.now y.now l.m.n }
    {
        let ln_p = numerics::ln(p);
        let gaps = (0..self.m.n)
            .filter(|&i| (x[i] > 0.0) & (y[i] > 0.0))
            .map(|i| gap(self.lg[i], self.ps[i], ln_p, x[i], y[i]));
        gaps.fold(0.0, floats::max)
    }
}

// ---- bubble point: p = Σ x_i γ_i p_i^sat, y_i = x_i γ_i p_i^sat / p

// The bubble point of x from its ln γ: 25 where the pressure isn't finite and positive.
pub fn bubble_from(
    x: &[f64; 8],
    lg: &[f64; 8],
    ps: &[f64; 8],
    n: usize,
) -> Result<BubblePoint, Refusal>
    ensures { outcome_of result ≡ bubble_from x.now lg.now ps.now (places n) }
{
    let m = Count::of(n);
    let raoult = Raoult { lg, ps, m };
    let w = raoult.terms(x, |x, gamma, ps| if x > 0.0 { x * gamma * ps } else { 0.0 });
    let p = thermo_types::sum(&w, m.n);
    if !floats::is_finite(p) | (p <= 0.0) {
        return Err(Refusal::ResultNotFinite);
    }
    let vapor = thermo_types::divided(&w, p, m.n);
    Ok(BubblePoint { pressure: p, vapor })
}

// ---- residual of ln fugacities

// max_i |ln(y_i p) - ln(x_i γ_i p_i^sat)| over solvents present in both phases: 25 where it isn't finite.
#[tactic(auto, unfolding(crate::specs::Saturation::residual_with, floats::specs::Outcome::need))]
pub fn residual_with(
    lg: &[f64; 8],
    ps: &[f64; 8],
    p: f64,
    x: &[f64; 8],
    y: &[f64; 8],
    n: usize,
) -> Result<f64, Refusal>
    ensures { outcome_of result ≡ residual_with lg.now ps.now p x.now y.now (places n) }
{
    let m = Count::of(n);
    let r = Raoult { lg, ps, m }.largest_gap(p, x, y);
    if !floats::is_finite(r) {
        return Err(Refusal::ResultNotFinite);
    }
    Ok(r)
}

// ---- dew point: p = 1 / Σ y_i / (γ_i p_i^sat), by successive substitution on ln γ of the incipient liquid

// A vapor y whose dew point is sought, with the tables and the vapor pressures of a temperature.
// Kept: what the table stands for goes beside it: its type is the caller's, and the borrow checker covers no generic struct that
// lends.
#[derive(Clone, Copy)]
struct Vapor<'a> {
    table: &'a [f64; 512],
    y: &'a [f64; 8],
    ps: &'a [f64; 8],
    m: Count,
}

impl Vapor<'_> {
    // What ln γ gives: 34 where the terms have no sum to divide by.
    fn incipient(self, lg: &[f64; 8]) -> Result<IncipientLiquid, Refusal>
        ensures { let v = self.entry in outcome_of result ≡ incipient v.ps.now v.m.n v.y.now lg.now }
    {
        let Vapor { y, ps, m, .. } = self;
        let raoult = Raoult { lg, ps, m };
        let w = raoult.terms(
            y,
            |y, gamma, ps| if y > 0.0 { y / (gamma * ps) } else { 0.0 },
        );
        let pressure = 1.0 / thermo_types::sum(&w, m.n);
        let liquid = thermo_types::normalize(&w, m.n)?;
        Ok(IncipientLiquid { pressure, liquid })
    }

    // The largest change of ln γ of a solvent that is present.
    fn largest_change(self, new: &[f64; 8], old: &[f64; 8]) -> f64
        ensures { result ≡ change_of self.entry.y.now new.now old.now self.entry.m.n }
    {
        let changes = (0..self.m.n)
            .filter(|&i| self.y[i] > 0.0)
            .map(|i| floats::abs(new[i] - old[i]));
        changes.fold(0.0, floats::max)
    }

    // A turn from ln γ: what `activity` refuses at the incipient liquid, then 25 where change or pressure isn't finite.
    fn turn<E: Reason>(self, s: Tabled<E>, lg: &[f64; 8], begun: &mut u64) -> Result<DewTurn, E>
        ensures { let v = self.entry in
            Counts begun.old (outcome_by E.said result) begun.new
            (bind_counted (dew_turn_counted (activity_by_reason E.said v.table.now s) v.ps.now v.m.n v.y.now lg.now) (λ a. uncounted (ok (turned v.y.now lg.now v.m.n a)))) }
    {
        let IncipientLiquid { pressure, liquid } = self.incipient(lg)?;
        counted::begin(begun);
        // Kept: `excess` into arrays: by `activity`, whose result is copied out of a `Result`, a dew point of two solvents takes 4 to 6 %
        // longer.
        let mut ln_gamma = [0.0; 8];
        let mut slopes = [0.0; 8];
        thermo_models::excess(self.table, s, &liquid, &mut ln_gamma, &mut slopes)?;
        let change = self.largest_change(&ln_gamma, lg);
        if !(floats::is_finite(change) & floats::is_finite(pressure)) {
            return Err(E::from(Refusal::ResultNotFinite));
        }
        Ok(DewTurn { change, ln_gamma })
    }

    // The dew point of converged ln γ.
    fn point<E: Reason>(
        self,
        s: Tabled<E>,
        lg: &[f64; 8],
        iterations: u64,
        begun: &mut u64,
    ) -> Result<DewPoint, E>
        ensures { let v = self.entry in Counts begun.old (outcome_by E.said result) begun.new (dew_point_counted (activity_by_reason E.said v.table.now s) v.ps.now v.m.n v.y.now lg.now iterations) }
    {
        let IncipientLiquid { pressure, liquid } = self.incipient(lg)?;
        counted::begin(begun);
        let activity = thermo_models::activity(self.table, s, &liquid)?;
        let residual = residual_with(
            &activity.ln_gamma,
            self.ps,
            pressure,
            &liquid,
            self.y,
            self.m.n,
        )?;
        Ok(DewPoint {
            pressure,
            liquid,
            activity,
            iterations,
            residual,
        })
    }
}

// The dew point of y, by turns from ln γ = 0 until the change is within the tolerance: 34, what `activity` refuses, 25, and
// 27 where the limit is used up. `begun` counts the evaluations on.
pub fn dew_at<E: Reason>(
    table: &[f64; 512],
    s: Tabled<E>,
    y: &[f64; 8],
    ps: &[f64; 8],
    o: ActivityOptions,
    begun: &mut u64,
) -> Result<DewPoint, E>
    ensures { Counts begun.old (outcome_by E.said result) begun.new (dew_counted (activity_by_reason E.said table.now s) ps.now (places s.n) o y.now) }
{
    let vapor = Vapor {
        table,
        y,
        ps,
        m: Count::of(s.n),
    };
    let mut lg = [0.0; 8];
    for done in 0..o.max_iterations {
        let turn = vapor.turn(s, &lg, begun)?;
        lg = turn.ln_gamma;
        if turn.change <= o.tolerance {
            return vapor.point(s, &lg, done + 1, begun);
        }
    }
    Err(E::from(Refusal::NotConverged))
}

// ---- tasks 2 and 3

// Bubble pressure of the feed x, p = Σ x_i γ_i p_i^sat, from the tables and the vapor pressures of a temperature: what
// `activity` refuses, 25, and 23 where the pressure isn't in the domain.
#[tactic(auto, unfolding(crate::specs::Saturation::bubble_task, crate::specs::Saturation::bubble_at, floats::specs::Outcome::bind, floats::specs::Outcome::need, crate::specs::Saturation::residual))]
pub fn activity_bubble_pressure<E: Reason>(
    table: &[f64; 512],
    s: Tabled<E>,
    x: &[f64; 8],
    ps: &[f64; 8],
) -> Result<ActivitySaturation, E>
    ensures { outcome_by E.said result ≡ bubble_task (activity_by_reason E.said table.now s) ps.now (places s.n) s.t.0 x.now }
{
    let activity = thermo_models::activity(table, s, x)?;
    let lg = &activity.ln_gamma;
    let BubblePoint { pressure, vapor } = bubble_from(x, lg, ps, s.n)?;
    if !thermo_models::check_pressure(pressure) {
        return Err(E::from(Refusal::PressureOutside));
    }
    let residual = residual_with(lg, ps, pressure, x, &vapor, s.n)?;
    Ok(ActivitySaturation {
        temperature: s.t.value(),
        pressure,
        liquid: *x,
        vapor,
        residual,
        iterations: 0,
    })
}

// Dew pressure of the feed y, from the same: 34, what `activity` refuses at an incipient liquid, 25, 27, 23.
#[tactic(auto, unfolding(crate::specs::Saturation::dew_task, floats::specs::Outcome::bind, floats::specs::Outcome::need))]
pub fn activity_dew_pressure<E: Reason>(
    table: &[f64; 512],
    s: Tabled<E>,
    y: &[f64; 8],
    ps: &[f64; 8],
    o: ActivityOptions,
) -> Result<ActivitySaturation, E>
    ensures { outcome_by E.said result ≡ dew_task (activity_by_reason E.said table.now s) ps.now (places s.n) o s.t.0 y.now }
{
    let mut begun = 0;
    let DewPoint {
        pressure,
        liquid,
        iterations,
        residual,
        ..
    } = dew_at(table, s, y, ps, o, &mut begun)?;
    if !thermo_models::check_pressure(pressure) {
        return Err(E::from(Refusal::PressureOutside));
    }
    Ok(ActivitySaturation {
        temperature: s.t.value(),
        pressure,
        liquid,
        vapor: *y,
        residual,
        iterations,
    })
}
