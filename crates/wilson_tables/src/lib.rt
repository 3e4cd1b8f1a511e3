// Wilson: Λ of every ordered pair, once per temperature. Λ_ij = exp(a_ij + b_ij/T), Λ_ii = 1.
// Parameters are flat: a and b of the pair (i, j) from (i * 8 + j) * 6 on. The table has three planes of 64, entry (i, j)
// of plane k at k * 64 + i * 8 + j: Λ with two derivatives.
#![tactic(auto)]

ghost use Rattle.std.specs.Prelude.{◌≡◌, ℕ, List, Float, refl};
ghost use Rattle.std.proofs.Math.Nat.{le-add_right};
ghost use Rattle.floats.specs.Arithmetic.{0f, 1f};
ghost use Rattle.floats.specs.Vector.{at, places};
ghost use Rattle.jet.specs.Jets.{const_j, exp_j};
ghost use Rattle.jet.specs.Lanes.{Lists};
ghost use Rattle.wilson_tables.specs.Pair.{ln_lambda_j};
ghost use Rattle.wilson_tables.specs.Table.{kept_of, lambdas_of};

use floats::Count;
use jet::{Jet, Pairs, Plane, Source};
use thermo_types::Temperature;

// a + b/T, from a pair's parameters.
#[tactic(auto, unfolding(crate::specs::Pair::ln_lambda_j, crate::specs::Pair::kelvin_j, jet::specs::Jets::two_j))]
fn ln_lambda(p: [f64; 6], t: f64) -> Jet
    ensures { result ≡ ln_lambda_j p t 0 }
{
    Jet::constant(p[0]) + Jet::constant(p[1]) / Jet::two(t, 1.0)
}

// The three planes' cells.
#[tactic(auto, unfolding(crate::specs::Table::kept_of))]
fn kept(l: Jet) -> [f64; 3]
    ensures { (k : ℕ) → at result k ≡ kept_of l k }
{
    [l.v, l.d, l.dd]
}

// Λ at a temperature, K.
#[derive(Clone, Copy)]
struct Lambdas {
    t: f64,
}

impl Pairs<3> for Lambdas {
    ghost cells = { λ s p. kept_of (exp_j (ln_lambda_j p s.t 0)) };

    ghost own_cells = { λ s. kept_of (const_j 1f) };

    ghost beside_of = { λ s p. const_j 0f };

    ghost exponent_of = { λ s p. ln_lambda_j p s.t 0 };

    ghost made_of = { λ s a g. kept_of g };

    ghost makes = { λ s p. refl };

    ghost few = { le-add_right 3 5 };

    // Nothing.
    fn beside(&self, _: [f64; 6]) -> Jet {
        Jet::constant(0.0)
    }

    fn exponent(&self, p: [f64; 6]) -> Jet {
        ln_lambda(p, self.t)
    }

    fn made(&self, _: Jet, g: Jet) -> [f64; 3] {
        kept(g)
    }

    fn own(&self) -> [f64; 3] {
        kept(Jet::constant(1.0))
    }
}

// The table at t.
pub fn tables_from<S: Source>(source: &S, t: Temperature, table: &mut [f64; 512])
    ensures { (P : List Float) → Lists (S.six source.now) (S.size source.now) P → table.new ≡ lambdas_of P (S.size source.now) t.0 table.old }
{
    jet::fill_from::<3, Lambdas, S>(&Lambdas { t: t.value() }, source, table);
}

// The same from parameters in a flat plane.
pub fn tables(parameters: &[f64; 384], n: usize, t: Temperature, table: &mut [f64; 512])
    ensures { table.new ≡ lambdas_of parameters.now (places n) t.0 table.old }
{
    let plane = Plane {
        parameters,
        m: Count::of(n),
    };
    tables_from::<Plane>(&plane, t, table);
}
