// ln, exp and powf, each equal to its definition in specs/Numerics.antt.
#![tactic(auto)]

ghost use Rattle.std.specs.Prelude.{◌≡◌, ℕ, ◌+◌, ◌*◌, ◌^◌, ◌<◌, ◌≤◌, false, T, ℤ, pos, ◌-ℤ◌, from_bits, int_div, IsTrue, Float};
ghost use Rattle.std.specs.Float.Ieee.Positive.{positive};
ghost use Rattle.std.specs.Int.Signed.{mag};
ghost use Rattle.std.specs.Float.Ieee.{odd, to_signed, minus, le, neg};
ghost use Rattle.std.specs.Float.{binary64};
ghost use Rattle.floats.specs.Arithmetic.{◌⊗◌, #};
ghost use Rattle.floats.specs.Vector.{at, places};
ghost use Rattle.numerics.specs.declared.Near.{Near};
ghost use Rattle.numerics.specs.Numerics.{ln_of, ln_from, ln_split, mantissa, exponent, exp_of, exp_from, exp_shift, powf_of, pow2, whole};

use std::f64::consts::{LOG2_E as C, SQRT_2};
use std::hint::select_unpredictable;

// ln 2, in two parts: A has few digits, so that a small whole number times A is exact.
const A: f64 = 0.6931471803691238;

const B: f64 = 1.9082149292705877e-10;

// One in the field of a float's exponent.
const FIELD: u64 = 1 << 52;

// The bits of 1.0, of 0.5 and of 2^52.
const ONE: u64 = 1023 * FIELD;

const HALF: u64 = 1022 * FIELD;

const WHOLE: u64 = 1075 * FIELD;

// 2^52 + 1023, and 1.5 * 2^52 + 1023.
const WHOLE_BIASED: f64 = 4503599627371519.0;

const ROUNDING: f64 = 6755399441056767.0;

// 2 ^ a, made of its exponent's field.
fn power(a: i64) -> f64
    requires { mag a < 1022 }
    ensures { result ≡ pow2 a }
{
    f64::from_bits(((a + 1023) as u64) * FIELD)
}

// C * v plus 0.5, or minus, if v < 0.
#[tactic(auto, unfolding(crate::specs::Numerics::exp_shift))]
fn exp_shift(v: f64) -> f64
    ensures { result ≡ exp_shift v }
{
    if v < 0.0 { C * v - 0.5 } else { C * v + 0.5 }
}

// e^(v - k ln 2), for k as a float. Where k is the definition's, one product with 2^k is as good as its two.
fn exp_digits(v: f64, f: f64) -> f64
    ensures pos_value { (k : ℤ) → f ≡ whole k → result ⊗ pow2 (int_div k (pos 2)) ⊗ pow2 (k -ℤ int_div k (pos 2)) ≡ exp_from v k }
    ensures v_value { T (le (neg (# 0x4085e00000000000)) v) → T (le v (# 0x4085e00000000000)) → f ≡ whole (to_signed 63 (exp_shift v)) → result ⊗ pow2 (to_signed 63 (exp_shift v)) ≡ exp_of v }
{
    let hi = v - f * A;
    let lo = f * B;
    let r = hi - lo;
    let t = r * r;
    let c = r
        - t * (0.16666666666666602
            + t * (-0.0027777777777015593
                + t * (6.613756321437934e-05
                    + t * (-1.6533902205465252e-06 + t * 4.1381367970572385e-08))));
    1.0 + (r * c / (2.0 - c) - lo + hi)
}

fn exp_from(v: f64, k: i64) -> f64
    requires { mag k < 2000 }
    ensures { result ≡ exp_from v k }
{
    let a = k / 2;
    exp_digits(v, k as f64) * power(a) * power(k - a)
}

fn exp_far(v: f64) -> f64
    ensures { result ≡ exp_of v }
{
    if v.is_nan() {
        v
    } else if v > 709.782712893384 {
        f64::INFINITY
    } else if v < -745.1332191019411 {
        0.0
    } else {
        exp_from(v, std::num::truncating_f64_to_i64(exp_shift(v)))
    }
}

// u - 1023 as a float, from the pattern of 2^52 + u.
fn count(u: u64) -> f64
    requires { u < 2048 }
    ensures { result ≡ whole (minus u 1023) }
{
    f64::from_bits(u + WHOLE) - WHOLE_BIASED
}

// A value, and whether it is the definition's: for exp, where v is near 0 and the whole number next to C * v is its k.
// Kept: as an `Option` it costs `exp_two` an eighth more time (43.5 cycles for 38.5), since a `None` is given a value too.
#[derive(Clone, Copy)]
struct Near {
    y: f64,
    ok: bool,
}

// 1.5 * 2^52 + 1023 + C * v, rounded, has k + 1023 for its last digits: the exponent's field of 2^k.
fn exp_near(v: f64) -> Near
    ensures { IsTrue result.ok → result.y ≡ exp_of v }
{
    let near = (-700.0 <= v) & (v <= 700.0);
    let w = select_unpredictable(near, v, 0.0);
    let p = C * w;
    let u = (p + ROUNDING).to_bits() % 2048;
    let f = count(u);
    let d = p - f;
    Near {
        y: exp_digits(w, f) * f64::from_bits(u * FIELD),
        ok: near & (-0.4999990463256836 < d) & (d < 0.4999990463256836),
    }
}

pub fn exp(v: f64) -> f64
    ensures { result ≡ exp_of v }
{
    let near = exp_near(v);
    if near.ok { near.y } else { exp_far(v) }
}

// Of each of two: the steps of `near` run side by side, and where it does not serve both, `sure` does.
fn side_by_side<N: Fn(f64) -> Near, S: Fn(f64) -> f64>(
    near: N,
    sure: S,
    a: f64,
    b: f64,
) -> (f64, f64)
    requires near { N.IsAlwaysCallable near }
    requires sure { S.IsAlwaysCallable sure }
    // where both give f's values, `near` if it says ok, so do the two
    ensures { (f : Float → Float)
        → ((x : Float) (n : Near) → N.post near x n → IsTrue n.ok → n.y ≡ f x)
        → ((x y : Float) → S.post sure x y → y ≡ f x)
        → (result.0 ≡ f a) × (result.1 ≡ f b) }
{
    let m = near(a);
    let n = near(b);
    if m.ok & n.ok {
        (m.y, n.y)
    } else {
        (sure(a), sure(b))
    }
}

// exp of each of two.
pub fn exp_two(a: f64, b: f64) -> (f64, f64)
    ensures { (result.0 ≡ exp_of a) × (result.1 ≡ exp_of b) }
{
    side_by_side(exp_near, exp_far, a, b)
}

// exp of the first n entries, two at a time. Nothing is said of the entries past n.
#[tactic(auto, unfolding(floats::specs::Vector::fill))]
pub fn exps(v: &[f64; 8], n: usize) -> [f64; 8]
    ensures { (k : ℕ) → k < places n → at result k ≡ exp_of (at v.now k) }
{
    let mut e = [0.0; 8];
    for i in (0..floats::places(n)).step_by(2) {
        (e[i], e[i + 1]) = exp_two(v[i], v[i + 1]);
    }
    e
}

// How far up the leading one of these digits has to move to stand at 2^52.
fn shift_up(digits: u64) -> u32
    requires { (0 < digits) × (digits < 2 ^ 53) }
    ensures { (2 ^ 52 ≤ digits * 2 ^ result) × (digits * 2 ^ result < 2 ^ 53) }
{
    digits.leading_zeros() - 11
}

#[tactic(auto, unfolding(crate::specs::Numerics::ln_from))]
fn ln_from(k: f64, m: f64) -> f64
    ensures { result ≡ ln_from k m }
{
    let f = m - 1.0;
    let s = f / (2.0 + f);
    let z = s * s;
    let h = 0.5 * f * f;
    let l = z
        * (0.6666666666666735
            + z * (0.3999999999940942
                + z * (0.2857142874366239
                    + z * (0.22222198432149784
                        + z * (0.1818357216161805
                            + z * (0.15313837699209373 + z * 0.14798198605116586))))));
    k * A - ((h - (s * (h + l) + k * B)) - f)
}

#[tactic(auto, unfolding(crate::specs::Numerics::ln_split))]
fn ln_split(k: i64, m: f64) -> f64
    requires { mag k < 1999 }
    ensures { result ≡ ln_split k m }
{
    if m > SQRT_2 {
        ln_from((k + 1) as f64, m * 0.5)
    } else {
        ln_from(k as f64, m)
    }
}

// ln of 2^(field - 1023) × m, where m from 1 to 2 has the digits `digits` past its leading one. No branch: which way m > √2
// goes can't be foreseen.
fn ln_fields(field: u64, digits: u64) -> f64
    requires { (field < 2047) × (digits < 4503599627370496) }
    ensures { result ≡ ln_split (minus field 1023) (from_bits binary64 (digits + 4607182418800017408)) }
{
    let m = f64::from_bits(digits + ONE);
    let up = m > SQRT_2;
    ln_from(
        count(field + u64::from(up)),
        select_unpredictable(up, m * 0.5, m),
    )
}

// ln of a float below the smallest normal one, which is `digits` times 2^-1074.
fn ln_subnormal(digits: u64, v: f64) -> f64
    requires { (0 < digits) × (digits < 2 ^ 53) × (v ≡ odd 53 false digits 0 1074) }
    ensures { result ≡ ln_split (exponent v) (mantissa v) }
{
    let j = shift_up(digits);
    ln_split(-((j + 1022) as i64), f64::from_bits((digits << j) + HALF))
}

fn ln_positive(v: f64) -> f64
    requires { T (positive v) }
    ensures { result ≡ ln_split (exponent v) (mantissa v) }
{
    let bits = v.to_bits();
    let field = bits / FIELD;
    let digits = bits % FIELD;
    if field == 0 {
        ln_subnormal(digits, v)
    } else {
        ln_fields(field, digits)
    }
}

#[tactic(auto, unfolding(crate::specs::Numerics::ln_of))]
pub fn ln(v: f64) -> f64
    ensures { result ≡ ln_of v }
{
    if v.is_nan() {
        v
    } else if v < 0.0 {
        f64::NAN
    } else if v == 0.0 {
        f64::NEG_INFINITY
    } else if v == f64::INFINITY {
        v
    } else {
        ln_positive(v)
    }
}

// ln(v), where `ok`: v is positive, finite and not below the smallest normal float.
fn ln_near(v: f64) -> Near
    ensures { IsTrue result.ok → result.y ≡ ln_of v }
{
    let above = (0.0 < v) & (v < f64::INFINITY);
    let bits = select_unpredictable(above, v, 1.0).to_bits();
    let field = bits / FIELD;
    Near {
        y: ln_fields(field, bits % FIELD),
        ok: above & (0 < field),
    }
}

// ln of each of two.
pub fn ln_two(a: f64, b: f64) -> (f64, f64)
    ensures { (result.0 ≡ ln_of a) × (result.1 ≡ ln_of b) }
{
    side_by_side(ln_near, ln, a, b)
}

// b to the power e, for b > 0.
pub fn powf(b: f64, e: f64) -> f64
    ensures { result ≡ powf_of b e }
{
    exp(e * ln(b))
}
