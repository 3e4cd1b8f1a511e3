// NRTL: activity coefficients and excess properties of a composition, from the table of its temperature.
// g^E/(RT) = Σ_i x_i C_i / S_i, S_i = Σ_k x_k G_ki, C_i = Σ_k x_k τ_ki G_ki,
// ln γ_i = C_i / S_i + Σ_j (x_j G_ij / S_j) (τ_ij − C_j / S_j).
// Four solvents i side by side, then two: their sums don't depend on each other, so the machine's lanes share the loop.
// Where n is odd the lane past it is worked out too, and not read.
#![tactic(auto)]

ghost use Rattle.std.specs.Prelude.{◌≡◌, ◌≤◌, ◌<◌, ◌+◌, ◌*◌};
ghost use Rattle.floats.specs.Vector.{at, fill_from, places, zeros8};
ghost use Rattle.excess.specs.State.{state_from};
ghost use Rattle.outcome.specs.Refused.{outcome_by};
ghost use Rattle.excess.specs.Answers.{Gives, GivesBy};
ghost use Rattle.excess.specs.Steps.{jet_of, Side, GammasTo};
ghost use Rattle.jet.specs.Jets.{scale_j};
ghost use Rattle.jet.specs.declared.Jet.{Jet};
ghost use Rattle.jet.specs.Planes.{jet_at, two_at, jets, twos};
ghost use Rattle.nrtl_tables.specs.Table.{g_plane, tau_plane};
ghost use Rattle.nrtl.specs.Columns.{col_s, term_j, gibbs_from};
ghost use Rattle.nrtl.specs.Lanes.{lane, lanes, lanes_from, two_in, jet_in, evened, Cleared};
ghost use Rattle.nrtl.specs.On.{s_on, r_on, ln_in, ln_gamma_on, reduced_on, nrtl_on};

use excess::Energies;
use floats::Count;
use jet::Jet;
use nrtl_tables::{G_PLANE, H_PLANE, TAU_PLANE};
use outcome::{Reason, Refusal};
use thermo_types::Temperature;

// ---- lanes: Jets of the solvents side by side, entry i of plane k at k * 8 + i

// Value and slope of the solvent i.
// Kept: flat planes of eight, in which the lanes of W solvents are neighbors. i < 8 and the like are facts of a loop's own index;
// a type for an index would have to be made at each turn. Two functions for two and three planes, here and below: with a const
// parameter for their count each contract is both of these, by cases.
fn keep_two(j: Jet, i: usize, l: &mut [f64; 24])
    requires { i < 8 }
    ensures { l.new ≡ lane j i 2 l.old }
{
    l[i] = j.v;
    l[8 + i] = j.d;
}

fn keep_jet(j: Jet, i: usize, l: &mut [f64; 24])
    requires { i < 8 }
    ensures { l.new ≡ lane j i 3 l.old }
{
    l[i] = j.v;
    l[8 + i] = j.d;
    l[16 + i] = j.dd;
}

fn two_in(l: &[f64; 24], i: usize) -> Jet
    requires { i < 8 }
    ensures { result ≡ two_in l.now i }
{
    Jet::two(l[i], l[8 + i])
}

#[tactic(auto, unfolding(crate::specs::Lanes::jet_in))]
fn jet_in(l: &[f64; 24], i: usize) -> Jet
    requires { i < 8 }
    ensures { result ≡ jet_in l.now i }
{
    Jet {
        v: l[i],
        d: l[8 + i],
        dd: l[16 + i],
    }
}

// ---- the table and the composition

// Kept: wilson has a jet_at, a two_at and a keep_lns too. One pub fn for both has no `requires`, and would mask each index of
// these loops; b is a plane's begin, a constant. `Liquid` and `Summed` are there too: their methods are each model's own.
#[tactic(auto, unfolding(jet::specs::Planes::jet_at))]
fn jet_at(table: &[f64; 512], b: usize, e: usize) -> Jet
    requires { (b ≤ 320) × (e < 64) }
    ensures { result ≡ jet_at table.now b e }
{
    Jet {
        v: table[b + e],
        d: table[b + 64 + e],
        dd: table[b + 128 + e],
    }
}

fn two_at(table: &[f64; 512], b: usize, e: usize) -> Jet
    requires { (b ≤ 384) × (e < 64) }
    ensures { result ≡ two_at table.now b e }
{
    Jet::two(table[b + e], table[b + 64 + e])
}

// A table, and the mole fractions x of its solvents.
#[derive(Clone, Copy)]
struct Liquid<'a> {
    table: &'a [f64; 512],
    x: &'a [f64; 8],
    m: Count,
}

impl Liquid<'_> {
    // Entry (k, i) of the planes at b, times x_k.
    fn part(self, b: usize, k: usize, i: usize) -> Jet
        requires { (b ≤ 320) × (k < 8) × (i < 8) }
        ensures { let q = self.entry in result ≡ scale_j (jets q.table.now b k i) (at q.x.now k) }
    {
        jet_at(self.table, b, k * 8 + i).scale(self.x[k])
    }

    // The sums of W columns from i on.
    // Kept: `for`s over the lanes, here and below: each turn adds to the W entries of one array, and `from_fn` would make it anew.
    #[inline(always)]
    #[tactic(auto, unfolding(crate::specs::Columns::col_s, floats::specs::Fold::fold_to))]
    fn columns<const W: usize>(self, b: usize, i: usize) -> [Jet; W]
        requires { (b ≤ 320) × (i + W ≤ 8) }
        ensures { let q = self.entry in Side (col_s (jets q.table.now b) (at q.x.now) q.m.n) i W result }
    {
        let mut s = [Jet::constant(0.0); W];
        for k in 0..self.m.n {
            for w in 0..W {
                s[w] = s[w] + self.part(b, k, i + w);
            }
        }
        s
    }

    // S and R = C / S of W solvents from i on.
    #[inline(always)]
    #[tactic(auto, unfolding(floats::specs::Fold::fold_to))]
    fn sums_from<const W: usize>(self, i: usize, sums: &mut [f64; 24], ratios: &mut [f64; 24])
        requires { i + W ≤ 8 }
        ensures s { let q = self.entry in sums.new ≡ lanes_from (s_on q.table.now (at q.x.now) q.m.n) 2 i W sums.old }
        ensures r { let q = self.entry in ratios.new ≡ lanes_from (r_on q.table.now (at q.x.now) q.m.n) 3 i W ratios.old }
    {
        let s = self.columns::<W>(G_PLANE, i);
        let c = self.columns::<W>(H_PLANE, i);
        for w in 0..W {
            keep_two(s[w], i + w, sums);
            keep_jet(c[w] / s[w], i + w, ratios);
        }
    }

    #[inline(always)]
    fn fill_sums(self, sums: &mut [f64; 24], ratios: &mut [f64; 24])
        ensures s { let q = self.entry in sums.new ≡ lanes (s_on q.table.now (at q.x.now) q.m.n) 2 (evened q.m.n) sums.old }
        ensures r { let q = self.entry in ratios.new ≡ lanes (r_on q.table.now (at q.x.now) q.m.n) 3 (evened q.m.n) ratios.old }
    {
        // Kept: as a `for` over the fours an activity of four solvents takes 1 to 3 % longer, and with the choice in its body
        // one of two a fifth.
        let mut i = 0;
        while i + 2 < self.m.n {
            self.sums_from::<4>(i, sums, ratios);
            i += 4;
        }
        if i < self.m.n {
            self.sums_from::<2>(i, sums, ratios);
        }
    }

    // ln γ, slopes and energies of the liquid, into arrays that hold 0.0 everywhere.
    // Kept: the arrays are the caller's, as in crate excess, which has the figures: by value an activity of two solvents takes
    // 77 ns for 47.
    #[inline(always)]
    fn state(
        self,
        t: Temperature,
        ln_gamma: &mut [f64; 8],
        slopes: &mut [f64; 8],
    ) -> Result<Energies, Refusal>
        requires { (ln_gamma.now ≡ zeros8) × (slopes.now ≡ zeros8) }
        ensures { let q = self.entry in Gives (state_from (reduced_on q.table.now (at q.x.now) q.m.n) (ln_gamma_on q.table.now (at q.x.now) q.m.n) q.m.n t.0) result ln_gamma.new slopes.new }
    {
        let mut sums = [0.0; 24];
        let mut ratios = [0.0; 24];
        self.fill_sums(&mut sums, &mut ratios);
        let summed = Summed {
            of: self,
            sums: &sums,
            ratios: &ratios,
        };
        summed.fill_lns(ln_gamma, slopes);
        clear_past(self.m, ln_gamma, slopes);
        excess::finite_state(summed.reduced(), self.m.n, t, ln_gamma, slopes)
    }

    // Kept: four arms of one text: by a number that is known each loop is unrolled, 23, 35 and 65 ns for 38, 47 and 73.
    fn state_by_count(
        self,
        t: Temperature,
        ln_gamma: &mut [f64; 8],
        slopes: &mut [f64; 8],
    ) -> Result<Energies, Refusal>
        requires { (ln_gamma.now ≡ zeros8) × (slopes.now ≡ zeros8) }
        ensures { let q = self.entry in Gives (state_from (reduced_on q.table.now (at q.x.now) q.m.n) (ln_gamma_on q.table.now (at q.x.now) q.m.n) q.m.n t.0) result ln_gamma.new slopes.new }
    {
        match self.m.n {
            1 => self.state(t, ln_gamma, slopes),
            2 => self.state(t, ln_gamma, slopes),
            3 => self.state(t, ln_gamma, slopes),
            _ => self.state(t, ln_gamma, slopes),
        }
    }
}

// A liquid with its sums S, without their second derivatives, and its ratios R = C / S.
// Kept: as one struct of two arrays they are cleared by a call of memset, and an activity of two solvents takes 4 % longer.
#[derive(Clone, Copy)]
struct Summed<'a> {
    of: Liquid<'a>,
    sums: &'a [f64; 24],
    ratios: &'a [f64; 24],
}

impl Summed<'_> {
    // g^E/RT
    #[inline(always)]
    #[tactic(auto, unfolding(crate::specs::Columns::gibbs_from, floats::specs::Fold::fold_to))]
    fn reduced(self) -> Jet
        ensures { let q = self.entry in result ≡ gibbs_from (jet_in q.ratios.now) (at q.of.x.now) q.of.m.n }
    {
        let mut e = Jet::constant(0.0);
        for i in 0..self.of.m.n {
            e = e + jet_in(self.ratios, i).scale(self.of.x[i]);
        }
        e
    }

    // Term j of ln γ_i: value and slope. The second derivative isn't asked for.
    #[tactic(auto, unfolding(crate::specs::Columns::term_j))]
    fn term(self, i: usize, j: usize) -> Jet
        requires { (i < 8) × (j < 8) }
        ensures { let q = self.entry in result ≡ term_j (twos q.of.table.now tau_plane i j) (twos q.of.table.now g_plane i j) (two_in q.sums.now j) (two_in q.ratios.now j) (at q.of.x.now j) }
    {
        let e = i * 8 + j;
        let g = two_at(self.of.table, G_PLANE, e);
        let tau = two_at(self.of.table, TAU_PLANE, e);
        g.scale(self.of.x[j]) / two_in(self.sums, j) * (tau - two_in(self.ratios, j))
    }

    // ln γ of W solvents from i on.
    #[inline(always)]
    #[tactic(auto, unfolding(crate::specs::Columns::ln_from, floats::specs::Fold::fold_to))]
    fn lns_from<const W: usize>(self, i: usize) -> [Jet; W]
        requires { i + W ≤ 8 }
        ensures { let q = self.entry in Side (ln_in q.of.table.now q.sums.now q.ratios.now (at q.of.x.now) q.of.m.n) i W result }
    {
        let mut l = [Jet::constant(0.0); W];
        for w in 0..W {
            l[w] = two_in(self.ratios, i + w);
        }
        for j in 0..self.of.m.n {
            for w in 0..W {
                l[w] = l[w] + self.term(i + w, j);
            }
        }
        l
    }

    #[inline(always)]
    #[tactic(auto, unfolding(floats::specs::Vector::fill))]
    fn fill_lns(self, ln_gamma: &mut [f64; 8], slopes: &mut [f64; 8])
        ensures { let q = self.entry in GammasTo (ln_in q.of.table.now q.sums.now q.ratios.now (at q.of.x.now) q.of.m.n) (evened q.of.m.n) ln_gamma.old slopes.old ln_gamma.new slopes.new }
    {
        // Kept: as in `fill_sums`.
        let mut i = 0;
        while i + 2 < self.of.m.n {
            let l = self.lns_from::<4>(i);
            keep_lns(l, i, ln_gamma, slopes);
            i += 4;
        }
        if i < self.of.m.n {
            let l = self.lns_from::<2>(i);
            keep_lns(l, i, ln_gamma, slopes);
        }
    }
}

// One array after the other: that way neighbors of one are one store.
#[tactic(auto, unfolding(floats::specs::Vector::fill_from))]
fn keep_lns<const W: usize>(l: [Jet; W], i: usize, ln_gamma: &mut [f64; 8], slopes: &mut [f64; 8])
    requires { i + W ≤ 8 }
    ensures values { ln_gamma.new ≡ fill_from (λ w. (jet_of l.entry w).v) i W ln_gamma.old }
    ensures slopes { slopes.new ≡ fill_from (λ w. (jet_of l.entry w).d) i W slopes.old }
{
    for w in 0..W {
        ln_gamma[i + w] = l[w].v;
    }
    for w in 0..W {
        slopes[i + w] = l[w].d;
    }
}

// 0.0 where the last two went past n.
#[inline(always)]
fn clear_past(m: Count, ln_gamma: &mut [f64; 8], slopes: &mut [f64; 8])
    ensures values { Cleared m.n ln_gamma.old ln_gamma.new }
    ensures slopes { Cleared m.n slopes.old slopes.new }
{
    if m.n % 2 == 1 {
        ln_gamma[m.n] = 0.0;
        slopes[m.n] = 0.0;
    }
}

// ln γ and slopes (1/K), 0.0 past n, and the energies at t and the mole fractions x, from a table and what `tables` said
// of its α, which is asked after the composition.
pub fn excess<E: Reason>(
    table: &[f64; 512],
    alphas: Result<(), E>,
    n: usize,
    t: Temperature,
    x: &[f64; 8],
    ln_gamma: &mut [f64; 8],
    slopes: &mut [f64; 8],
) -> Result<Energies, E>
    ensures { GivesBy E.said (nrtl_on table.now (outcome_by E.said alphas) (places n) t.0 (at x.now)) result ln_gamma.new slopes.new }
{
    excess::clear(ln_gamma, slopes);
    excess::with_state(t, x, n)?;
    alphas?;
    let m = Count::of(n);
    Ok(Liquid { table, x, m }.state_by_count(t, ln_gamma, slopes)?)
}
