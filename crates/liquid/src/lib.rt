// Vapor pressure of a pure liquid (liquid.rs), from the solvent's record:
// p = p_r exp((T_r/T) Σ n_k θ^t_k), θ = 1 − T/T_r.
#![tactic(auto)]

ghost use Rattle.std.specs.Prelude.{◌≡◌, ◌*◌, ◌/◌, not, ◌&&◌, Float};
ghost use Rattle.std.specs.Float.Ieee.{neg, le};
ghost use Rattle.floats.specs.Arithmetic.{◌⊕◌, ◌⊖◌, ◌⊗◌, ◌⊘◌, 0f, 1f};
ghost use Rattle.floats.specs.Small.{is_finite};
ghost use Rattle.numerics.specs.Numerics.{ln_of};
ghost use Rattle.liquid.specs.Vapor.{in_range, sums_of, vapor_of, vapor_from, vapor_pressure_of};
ghost use Rattle.outcome.specs.Refused.{outcome_of};

use floats::Count;
use outcome::Refusal;
use records::Ancillary;
use thermo_types::Temperature;

// ln p, p in Pa, with its derivatives by T in 1/K and 1/K².
#[derive(Clone, Copy)]
pub struct Logarithm {
    pub value: f64,
    pub slope: f64,
    pub curvature: f64,
}

// p in Pa, beside its logarithm.
#[derive(Clone, Copy)]
pub struct VaporPressure {
    pub pressure: f64,
    pub ln: Logarithm,
}

// S = Σ n_k θ^t_k and its first two derivatives by T.
#[derive(Clone, Copy)]
pub struct Sums {
    pub s: f64,
    pub ds: f64,
    pub d2s: f64,
}

// In a closed range.
#[tactic(auto, unfolding(crate::specs::Vapor::in_range))]
pub fn in_range(low: f64, high: f64, t: f64) -> bool
    ensures { result ≡ in_range low high t }
{
    (low <= t) & (t <= high)
}

// The sums with the term of n and e, whose powers are p = θ^e, q = θ^(e - 1) and r = θ^(e - 2).
fn add_term(z: Sums, t_r: f64, n: f64, e: f64, p: f64, q: f64, r: f64) -> Sums
    ensures { (result.s ≡ z.s ⊕ n ⊗ p) × (result.ds ≡ z.ds ⊕ neg n ⊗ e ⊗ q ⊘ t_r) × (result.d2s ≡ z.d2s ⊕ n ⊗ e ⊗ (e ⊖ 1f) ⊗ r ⊘ (t_r ⊗ t_r)) }
{
    Sums {
        s: z.s + n * p,
        ds: z.ds + -n * e * q / t_r,
        d2s: z.d2s + n * e * (e - 1.0) * r / (t_r * t_r),
    }
}

// Two terms to a step, so that their powers are worked out side by side; of an odd count not the last.
// Kept: `Ancillary` has four of the five, but its count is a `usize`: each of the two functions would make the Count again. Two
// terms to a step, then the odd one, as in thermo_models and wilson, where other things are done with the two.
fn sum_pairs(n: &[f64; 8], e: &[f64; 8], t_r: f64, theta: f64, l: f64, m: Count) -> Sums
    requires { l ≡ ln_of theta }
    ensures { result ≡ sums_of n.now e.now t_r theta (2 * (m.n / 2)) }
{
    let mut z = Sums {
        s: 0.0,
        ds: 0.0,
        d2s: 0.0,
    };
    for i in 0..m.n / 2 {
        let a = e[2 * i];
        let b = e[2 * i + 1];
        let p = numerics::exp_two(a * l, b * l);
        let q = numerics::exp_two((a - 1.0) * l, (b - 1.0) * l);
        let r = numerics::exp_two((a - 2.0) * l, (b - 2.0) * l);
        z = add_term(z, t_r, n[2 * i], a, p.0, q.0, r.0);
        z = add_term(z, t_r, n[2 * i + 1], b, p.1, q.1, r.1);
    }
    z
}

// l = ln θ is worked out once, since θ^e is exp(e ln θ).
fn sum_terms(n: &[f64; 8], e: &[f64; 8], t_r: f64, theta: f64, l: f64, m: Count) -> Sums
    requires { l ≡ ln_of theta }
    ensures { result ≡ sums_of n.now e.now t_r theta m.n }
{
    let z = sum_pairs(n, e, t_r, theta, l, m);
    if m.n % 2 == 0 {
        return z;
    }
    let a = e[m.n - 1];
    let p = numerics::exp_two(a * l, (a - 1.0) * l);
    let r = numerics::exp((a - 2.0) * l);
    add_term(z, t_r, n[m.n - 1], a, p.0, p.1, r)
}

// All four finite and the pressure positive.
pub fn is_representable(pressure: f64, ln_p: f64, d1: f64, d2: f64) -> bool
    ensures { result ≡ (is_finite pressure && is_finite ln_p && is_finite d1 && is_finite d2 && not (le pressure 0f)) }
{
    floats::is_finite(pressure)
        & floats::is_finite(ln_p)
        & floats::is_finite(d1)
        & floats::is_finite(d2)
        & !(pressure <= 0.0)
}

// ln p from ln p_r and S, and its two derivatives by T.
#[tactic(auto, unfolding(crate::specs::Vapor::vapor_from))]
fn from_sums(t_r: f64, ln_reducing: f64, t: f64, sums: Sums) -> Logarithm
    ensures { (p_r : Float) → ln_reducing ≡ ln_of p_r → result ≡ (vapor_from t_r p_r t sums).ln }
{
    let Sums { s, ds, d2s } = sums;
    let q = t_r / t;
    let dq = -t_r / (t * t);
    let d2q = 2.0 * t_r / (t * t * t);
    Logarithm {
        value: ln_reducing + q * s,
        slope: dq * s + q * ds,
        curvature: d2q * s + 2.0 * dq * ds + q * d2s,
    }
}

// ln p at T, in the correlation's range or not: p is its exponential.
pub fn ln_pressure(a: Ancillary, t: f64) -> Logarithm
    ensures { result ≡ (vapor_of a t).ln }
{
    let theta = 1.0 - t / a.t_r;
    let (l, ln_reducing) = numerics::ln_two(theta, a.reducing_value);
    let sums = sum_terms(&a.n, &a.t, a.t_r, theta, l, Count::of(a.count));
    from_sums(a.t_r, ln_reducing, t, sums)
}

// Outside the correlation's range: 22; not representable: 25.
#[tactic(auto, unfolding(crate::specs::Vapor::vapor_pressure_of, floats::specs::Outcome::need))]
pub fn vapor_pressure(a: Ancillary, t: Temperature) -> Result<VaporPressure, Refusal>
    ensures { outcome_of result ≡ vapor_pressure_of a t.0 }
{
    let v = t.value();
    if !in_range(a.low, a.high, v) {
        return Err(Refusal::TemperatureOutside);
    }
    let ln = ln_pressure(a, v);
    let pressure = numerics::exp(ln.value);
    if !is_representable(pressure, ln.value, ln.slope, ln.curvature) {
        return Err(Refusal::ResultNotFinite);
    }
    Ok(VaporPressure { pressure, ln })
}
