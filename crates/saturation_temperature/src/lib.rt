// Bubble and dew temperatures at a pressure (activity.rs): ln p_sat(T) = ln p, by Newton steps kept inside a bracket.
#![tactic(auto)]

ghost use Rattle.std.specs.Prelude.{◌≡◌, List, Float, Ok, IfOk};
ghost use Rattle.floats.specs.Arithmetic.{◌⊕◌, ◌⊗◌, 0f};
ghost use Rattle.floats.specs.Fold.{fold_to, active};
ghost use Rattle.floats.specs.Vector.{at, places};
ghost use Rattle.floats.specs.Outcome.{Out, ok};
ghost use Rattle.outcome.specs.Refused.{outcome_of};
ghost use Rattle.thermo_types.specs.declared.ActivityOptions.{ActivityOptions};
ghost use Rattle.thermo_models.specs.Model.{Activity};
ghost use Rattle.thermo_models.specs.Activity.{activity_of};
ghost use Rattle.thermo_models.specs.Domain.{pure_liquids_of};
ghost use Rattle.saturation.specs.Saturation.{dew_at};
ghost use Rattle.saturation_temperature.specs.Search.{Point, step_of, collapsed, solve_temperature};
ghost use Rattle.saturation_temperature.specs.Boiling.{bubble_saturation, dew_saturation, bubble_temperature, dew_temperature};
ghost use Rattle.saturation_temperature.specs.Answers.{activity_from, Weighed, first_in, Evaluates, bubble_tried, dew_tried};

use floats::Count;
use outcome::Refusal;
use saturation::{ActivitySaturation, BubblePoint, DewPoint};
use thermo_types::{ActivityOptions, Pressure, Temperature};

// f(T) = ln p_sat(T) - ln p, and its slope, 1/K.
#[derive(Clone, Copy)]
struct Point {
    value: f64,
    slope: f64,
}

// Where f is 0, K, and the iterations.
#[derive(Clone, Copy)]
struct Root {
    temperature: f64,
    iterations: u64,
}

// A bracket of the root, and the next temperature to try, K.
// Kept: Rachford-Rice has such a bracket and such a step. What is one formula, the middle and 4 ε, is shared; the steps and the
// tests that end the two searches are not alike.
#[derive(Clone, Copy)]
struct Bracket {
    lo: f64,
    hi: f64,
    next: f64,
}

// ---- the search, for any f

// The Newton step where f rises and the step stays inside the bracket, else the middle.
#[tactic(auto, unfolding(crate::specs::Search::step_of))]
fn step(f: Point, b: Bracket) -> Bracket
    ensures { result ≡ step_of f b }
{
    let (lo, hi) = if f.value < 0.0 {
        (b.next, b.hi)
    } else {
        (b.lo, b.next)
    };
    let newton = b.next - f.value / f.slope;
    let next = if (0.0 < f.slope) & (lo < newton) & (newton < hi) {
        newton
    } else {
        floats::middle(lo, hi)
    };
    Bracket { lo, hi, next }
}

#[tactic(auto, unfolding(crate::specs::Search::collapsed))]
fn collapsed(b: Bracket, t: f64) -> bool
    ensures { result ≡ collapsed b t }
{
    (b.next == t) | (b.hi - b.lo <= floats::FOUR_EPSILON * t)
}

// Safeguarded Newton on f(T) = 0 over the bracket of the options, K: f at both ends before either is returned, 26 where they
// don't bracket the root, 27 where the bracket has collapsed or the limit is used up. Beside the root stands what f had beside it.
// Kept: the root is written out three times: a function that gives it as an Option is as long with its contract, and three
// answers more then say which T stands in the option.
fn solve_temperature<S: Copy, F: Fn(f64) -> Result<(Point, S), Refusal>>(
    f: F,
    o: ActivityOptions,
) -> Result<(Root, S), Refusal>
    requires { F.IsAlwaysCallable f }
    ensures root { (g : Float → Out Point) → Evaluates (F.post f) g → first_in result ≡ solve_temperature g o }
    ensures beside { IfOk result (λ found. (point : Point) × F.post f found.0.temperature (Ok (point, found.1))) }
{
    let lo = o.minimum_temperature_k;
    let hi = o.maximum_temperature_k;
    let (low, at_low) = f(lo)?;
    let (high, at_high) = f(hi)?;
    if floats::abs(low.value) <= o.tolerance {
        return Ok((
            Root {
                temperature: lo,
                iterations: 0,
            },
            at_low,
        ));
    }
    if floats::abs(high.value) <= o.tolerance {
        return Ok((
            Root {
                temperature: hi,
                iterations: 0,
            },
            at_high,
        ));
    }
    if (0.0 < low.value) | (high.value < 0.0) {
        return Err(Refusal::NotBracketed);
    }
    let mut bracket = Bracket {
        lo,
        hi,
        next: floats::middle(lo, hi),
    };
    for done in 0..o.max_temperature_iterations {
        let t = bracket.next;
        let (point, beside) = f(t)?;
        if floats::abs(point.value) <= o.tolerance {
            return Ok((
                Root {
                    temperature: t,
                    iterations: done + 1,
                },
                beside,
            ));
        }
        bracket = step(point, bracket);
        if collapsed(bracket, t) {
            return Err(Refusal::NotConverged);
        }
    }
    Err(Refusal::NotConverged)
}

// ---- the feed
// Kept: the test of p and the making of a feed, twice: in a function the test wants a law for each way out of it, and a feed's
// contract is an equation for each of its fields.

// A feed z at a pressure p, Pa, with the book and the parameters of its solvents.
#[derive(Clone, Copy)]
struct Feed<'a> {
    book: &'a [u8],
    parameters: &'a [f64; 384],
    m: Count,
    p: f64,
    z: &'a [f64; 8],
}

// ---- bubble temperature

impl Feed<'_> {
    // Σ w_i, Pa, and Σ w_i (∂ ln γ_i/∂T + d ln p_i^sat/dT), Pa/K, where w = x γ p_sat of each solvent present.
    fn weigh(self, lg: &[f64; 8], sl: &[f64; 8], ps: &[f64; 8], dps: &[f64; 8]) -> (f64, f64)
        ensures { Weighed self.entry.z.now lg.now sl.now ps.now dps.now self.entry.m.n result.0 result.1 }
    {
        let x = self.z;
        let gamma = numerics::exps(lg, self.m.n);
        let terms = (0..self.m.n).filter(|&i| 0.0 < x[i]).map(|i| {
            let w = x[i] * gamma[i] * ps[i];
            (w, w * (sl[i] + dps[i]))
        });
        terms.fold((0.0, 0.0), |s, term| (s.0 + term.0, s.1 + term.1))
    }

    // f(T) = ln Σ w_i - ln p, beside ln γ of the feed and the vapor pressures: 13, the activity of the feed (24, 25), then the
    // pure liquids (22, 25).
    #[tactic(auto, unfolding(crate::specs::Answers::bubble_tried, floats::specs::Outcome::bind))]
    fn try_bubble(self, t: f64) -> Result<(Point, ([f64; 8], [f64; 8])), Refusal>
        ensures { let f = self.entry in outcome_of result ≡ bubble_tried (activity_of f.book.now f.parameters.now f.m.n) (pure_liquids_of f.book.now f.m.n) f.m.n f.p f.z.now t }
    {
        let kelvin = Temperature::new(t)?;
        let mut table = [0.0; 512];
        let s = thermo_models::tables(self.book, self.parameters, self.m.n, kelvin, &mut table);
        let a = thermo_models::activity(&table, s, self.z)?;
        let pure = thermo_models::pure_liquids(self.book, self.m.n, kelvin)?;
        let (sum, slope) = self.weigh(&a.ln_gamma, &a.slopes, &pure.pressure, &pure.slope);
        let point = Point {
            value: numerics::ln(sum) - numerics::ln(self.p),
            slope: slope / sum,
        };
        Ok((point, (a.ln_gamma, pure.pressure)))
    }

    // The answer at a root, from ln γ of the feed and the vapor pressures there: the bubble point, and its residual at the given pressure.
    #[tactic(auto, unfolding(saturation::specs::Saturation::bubble_at, saturation::specs::Saturation::residual, crate::specs::Boiling::bubble_saturation, floats::specs::Outcome::bind))]
    fn bubble_with(
        self,
        lg: &[f64; 8],
        ps: &[f64; 8],
        root: Root,
    ) -> Result<ActivitySaturation, Refusal>
        ensures { let f = self.entry in
            (E : List Float → Out Activity) (sl : List Float) → E f.z.now ≡ ok (activity_from lg.now sl) → outcome_of result ≡ bubble_saturation E ps.now f.m.n f.p f.z.now root.iterations root.temperature }
    {
        let BubblePoint { pressure, vapor } = saturation::bubble_from(self.z, lg, ps, self.m.n)?;
        let gap = saturation::residual_with(lg, ps, self.p, self.z, &vapor, self.m.n)?;
        Ok(ActivitySaturation {
            temperature: root.temperature,
            pressure: self.p,
            liquid: *self.z,
            vapor,
            residual: floats::max(gap, floats::abs(numerics::ln(pressure / self.p))),
            iterations: root.iterations,
        })
    }
}

// Bubble temperature at p: ln Σ x_i γ_i p_i^sat = ln p on the bracket of the options. 23, then what the search refuses.
#[tactic(auto, unfolding(crate::specs::Boiling::bubble_temperature, crate::specs::Boiling::saturation_temperature, floats::specs::Outcome::need))]
pub fn activity_bubble_temperature(
    book: &[u8],
    parameters: &[f64; 384],
    n: usize,
    p: Pressure,
    x: &[f64; 8],
    o: ActivityOptions,
) -> Result<ActivitySaturation, Refusal>
    ensures { outcome_of result ≡ bubble_temperature (activity_of book.now parameters.now (places n)) (pure_liquids_of book.now (places n)) (places n) o p.0 x.now }
{
    let p = p.value();
    if !thermo_models::check_pressure(p) {
        return Err(Refusal::PressureOutside);
    }
    let feed = Feed {
        book,
        parameters,
        m: Count::of(n),
        p,
        z: x,
    };
    let (root, (lg, ps)) = solve_temperature(|t| feed.try_bubble(t), o)?;
    feed.bubble_with(&lg, &ps, root)
}

// ---- dew temperature

impl Feed<'_> {
    // Σ x_i (∂ ln γ_i/∂T + d ln p_i^sat/dT) over the incipient liquid of the solvents in the vapor, 1/K.
    fn dew_slope(self, liquid: &[f64; 8], sl: &[f64; 8], dps: &[f64; 8]) -> f64
        ensures { result ≡ fold_to (active (at self.entry.z.now) (λ i s. s ⊕ at liquid.now i ⊗ (at sl.now i ⊕ at dps.now i))) 0f self.entry.m.n }
    {
        let terms = (0..self.m.n)
            .filter(|&i| 0.0 < self.z[i])
            .map(|i| liquid[i] * (sl[i] + dps[i]));
        terms.fold(0.0, |s, term| s + term)
    }

    // f(T) = ln p_dew(T) - ln p, beside the dew point and the vapor pressures: 13, the pure liquids (22, 25), then the dew point.
    #[tactic(auto, unfolding(crate::specs::Answers::dew_tried, floats::specs::Outcome::bind, crate::specs::Boiling::dew_slope))]
    fn try_dew(self, o: ActivityOptions, t: f64) -> Result<(Point, (DewPoint, [f64; 8])), Refusal>
        ensures { let f = self.entry in outcome_of result ≡ dew_tried (activity_of f.book.now f.parameters.now f.m.n) (pure_liquids_of f.book.now f.m.n) f.m.n o f.p f.z.now t }
    {
        let kelvin = Temperature::new(t)?;
        let pure = thermo_models::pure_liquids(self.book, self.m.n, kelvin)?;
        let mut table = [0.0; 512];
        let s = thermo_models::tables(self.book, self.parameters, self.m.n, kelvin, &mut table);
        let mut begun = 0;
        let d = saturation::dew_at(&table, s, self.z, &pure.pressure, o, &mut begun)?;
        let point = Point {
            value: numerics::ln(d.pressure) - numerics::ln(self.p),
            slope: self.dew_slope(&d.liquid, &d.activity.slopes, &pure.slope),
        };
        Ok((point, (d, pure.pressure)))
    }

    // The answer at a root, from the dew point there: its residual at the given pressure. The count wraps past 2^64, which no
    // limit of a question reaches.
    #[tactic(auto, unfolding(crate::specs::Boiling::dew_saturation, floats::specs::Outcome::bind))]
    fn dew_with(self, d: DewPoint, ps: &[f64; 8], root: Root) -> Result<ActivitySaturation, Refusal>
        ensures { let f = self.entry in
            (E : List Float → Out Activity) (o : ActivityOptions) → dew_at E ps.now f.m.n o f.z.now ≡ ok d → outcome_of result ≡ dew_saturation E ps.now f.m.n o f.p f.z.now root.iterations root.temperature }
    {
        let lg = &d.activity.ln_gamma;
        let gap = saturation::residual_with(lg, ps, self.p, &d.liquid, self.z, self.m.n)?;
        Ok(ActivitySaturation {
            temperature: root.temperature,
            pressure: self.p,
            liquid: d.liquid,
            vapor: *self.z,
            residual: floats::max(gap, floats::abs(numerics::ln(d.pressure / self.p))),
            iterations: root.iterations.wrapping_add(d.iterations),
        })
    }
}

// Dew temperature at p: ln p_dew(T) = ln p on the bracket of the options. 23, then what the search refuses.
#[tactic(auto, unfolding(crate::specs::Boiling::dew_temperature, crate::specs::Boiling::saturation_temperature, floats::specs::Outcome::need))]
pub fn activity_dew_temperature(
    book: &[u8],
    parameters: &[f64; 384],
    n: usize,
    p: Pressure,
    y: &[f64; 8],
    o: ActivityOptions,
) -> Result<ActivitySaturation, Refusal>
    ensures { outcome_of result ≡ dew_temperature (activity_of book.now parameters.now (places n)) (pure_liquids_of book.now (places n)) (places n) o p.0 y.now }
{
    let p = p.value();
    if !thermo_models::check_pressure(p) {
        return Err(Refusal::PressureOutside);
    }
    let feed = Feed {
        book,
        parameters,
        m: Count::of(n),
        p,
        z: y,
    };
    let (root, (d, ps)) = solve_temperature(|t| feed.try_dew(o, t), o)?;
    feed.dew_with(d, &ps, root)
}
