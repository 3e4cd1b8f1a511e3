// NRTL: τ and G of every ordered pair, once per temperature (the Rust's `matrices`).
// τ_ij = t0 + t1/T + t2 ln(T/K) + t3 T, α_ij = a0 + a1 T, G_ij = exp(−α_ij τ_ij); every diagonal term is zero.
// Parameters are flat: t0 to t3, a0 and a1 of the pair (i, j) from (i * 8 + j) * 6 on. The table has eight planes of 64,
// entry (i, j) of plane k at k * 64 + i * 8 + j: G, τ G, each with two derivatives, then τ with one.
#![tactic(auto)]

ghost use Rattle.std.specs.Prelude.{◌≡◌, ℕ, ◌<◌, List, Float, refl};
ghost use Rattle.std.proofs.Math.Nat.{le_refl};
ghost use Rattle.floats.specs.Arithmetic.{0f, 1f};
ghost use Rattle.floats.specs.Fold.{all_to};
ghost use Rattle.floats.specs.Vector.{at, places};
ghost use Rattle.jet.specs.Jets.{const_j, exp_j};
ghost use Rattle.jet.specs.Lanes.{Lists};
ghost use Rattle.nrtl_tables.specs.Pair.{basis_of, tau_j, alpha_j, exponent_j, alpha_above, both_above, all_above};
ghost use Rattle.nrtl_tables.specs.Table.{kept_of, Filled};

use floats::Count;
use jet::{Jet, Pairs, Plane, Source};
use outcome::Refusal;
use thermo_types::Temperature;

// Where the planes of G, of τ G and of τ begin.
pub const G_PLANE: usize = 0;

pub const H_PLANE: usize = 192;

pub const TAU_PLANE: usize = 384;

// ln T, 1/T and T as jets.
#[derive(Clone, Copy)]
struct Basis {
    lnt: Jet,
    inv: Jet,
    tj: Jet,
}

#[tactic(auto, unfolding(crate::specs::Pair::basis_of, jet::specs::Jets::two_j))]
fn basis_at(t: f64) -> Basis
    ensures { result ≡ basis_of t }
{
    Basis {
        lnt: Jet {
            v: numerics::ln(t),
            d: 1.0 / t,
            dd: -1.0 / (t * t),
        },
        inv: Jet {
            v: 1.0 / t,
            d: -1.0 / (t * t),
            dd: 2.0 / (t * t * t),
        },
        tj: Jet::two(t, 1.0),
    }
}

// ---- of one ordered pair, from its six parameters

#[tactic(auto, unfolding(crate::specs::Pair::tau_j))]
fn tau_of(p: [f64; 6], b: Basis) -> Jet
    ensures { result ≡ tau_j p b 0 }
{
    Jet::constant(p[0]) + b.inv.scale(p[1]) + b.lnt.scale(p[2]) + b.tj.scale(p[3])
}

#[tactic(auto, unfolding(crate::specs::Pair::alpha_j))]
fn alpha_of(p: [f64; 6], b: Basis) -> Jet
    ensures { result ≡ alpha_j p b 0 }
{
    Jet::constant(p[4]) + b.tj.scale(p[5])
}

// −α τ.
#[tactic(auto, unfolding(crate::specs::Pair::exponent_j))]
fn exponent(p: [f64; 6], b: Basis) -> Jet
    ensures { result ≡ exponent_j p b 0 }
{
    -(alpha_of(p, b) * tau_of(p, b))
}

// The eight planes' cells.
#[tactic(auto, unfolding(crate::specs::Table::kept_of))]
fn kept(tau: Jet, g: Jet) -> [f64; 8]
    ensures { (k : ℕ) → at result k ≡ kept_of tau g k }
{
    let h = tau * g;
    [g.v, g.d, g.dd, h.v, h.d, h.dd, tau.v, tau.d]
}

impl Pairs<8> for Basis {
    ghost cells = { λ b p. kept_of (tau_j p b 0) (exp_j (exponent_j p b 0)) };

    ghost own_cells = { λ b. kept_of (const_j 0f) (const_j 1f) };

    ghost beside_of = { λ b p. tau_j p b 0 };

    ghost exponent_of = { λ b p. exponent_j p b 0 };

    ghost made_of = { λ b. kept_of };

    ghost makes = { λ b p. refl };

    ghost few = { le_refl 8 };

    fn beside(&self, p: [f64; 6]) -> Jet {
        tau_of(p, *self)
    }

    fn exponent(&self, p: [f64; 6]) -> Jet {
        exponent(p, *self)
    }

    fn made(&self, a: Jet, g: Jet) -> [f64; 8] {
        kept(a, g)
    }

    fn own(&self) -> [f64; 8] {
        kept(Jet::constant(0.0), Jet::constant(1.0))
    }
}

// ---- question 24

#[tactic(auto, unfolding(crate::specs::Pair::alpha_above))]
fn alpha_right(p: [f64; 6], b: Basis) -> bool
    ensures { result ≡ alpha_above b p }
{
    0.0 < alpha_of(p, b).v
}

// Of a pair, both ways.
fn pair_right<S: Source>(source: &S, b: Basis, j: usize, i: usize) -> bool
    requires { (j < i) × (i < S.size source.now) }
    ensures { result ≡ both_above b (S.six source.now) i j }
{
    let (p, q) = source.both(j, i);
    alpha_right(p, b) & alpha_right(q, b)
}

fn row_right<S: Source>(source: &S, b: Basis, i: usize) -> bool
    requires { i < S.size source.now }
    ensures { result ≡ all_to (both_above b (S.six source.now) i) i }
{
    (0..i).all(|j| pair_right(source, b, j, i))
}

fn all_right<S: Source>(source: &S, b: Basis) -> bool
    ensures { result ≡ all_above b (S.six source.now) (S.size source.now) }
{
    (0..source.count().n).all(|i| row_right(source, b, i))
}

// ---- the table

// The table at t; refused (24) and left alone where an α isn't positive.
pub fn tables_from<S: Source>(
    source: &S,
    t: Temperature,
    table: &mut [f64; 512],
) -> Result<(), Refusal>
    ensures { (P : List Float) → Lists (S.six source.now) (S.size source.now) P → Filled P (S.size source.now) t.0 result table.old table.new }
{
    let b = basis_at(t.value());
    if !all_right(source, b) {
        return Err(Refusal::AlphaNotPositive);
    }
    jet::fill_from::<8, Basis, S>(&b, source, table);
    Ok(())
}

// The same from parameters in a flat plane.
pub fn tables(
    parameters: &[f64; 384],
    n: usize,
    t: Temperature,
    table: &mut [f64; 512],
) -> Result<(), Refusal>
    ensures { Filled parameters.now (places n) t.0 result table.old table.new }
{
    let plane = Plane {
        parameters,
        m: Count::of(n),
    };
    tables_from::<Plane>(&plane, t, table)
}
