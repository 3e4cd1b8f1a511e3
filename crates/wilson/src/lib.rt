// Wilson: activity coefficients and excess properties of a composition, from the table of its temperature.
// g^E/(RT) = −Σ_i x_i ln S_i, S_i = Σ_j x_j Λ_ij, ln γ_i = 1 − ln S_i − Σ_k x_k Λ_ki / S_k.
#![tactic(auto)]

ghost use Rattle.std.specs.Prelude.{◌≡◌, ℕ, ◌≤◌, ◌<◌, ◌+◌, ◌*◌};
ghost use Rattle.floats.specs.Vector.{at, fill_from, places, zeros8};
ghost use Rattle.floats.specs.Arithmetic.{1f};
ghost use Rattle.jet.specs.Jets.{const_j, div_j, scale_j, sub_j};
ghost use Rattle.jet.specs.declared.Jet.{Jet};
ghost use Rattle.jet.specs.Planes.{jet_at, two_at, jets, twos};
ghost use Rattle.excess.specs.State.{state_from};
ghost use Rattle.excess.specs.Answers.{Gives};
ghost use Rattle.excess.specs.Steps.{two_of, s_in, r_in, SumTurn, SumsTo, jet_of, Side, GammasTo};
ghost use Rattle.wilson.specs.Sums.{row_s, quotients, wilson_from};
ghost use Rattle.wilson.specs.On.{s_on, ln_s_on, ln_gamma_on, reduced_on, wilson_on};

use excess::Energies;
use floats::Count;
use jet::Jet;
use outcome::Refusal;
use thermo_types::Temperature;

// ---- the sums S and ln S

// Kept: nrtl has a jet_at, a two_at and a keep_lns too; one pub fn for both has no `requires`, and would mask each index.
// `Liquid` and `Summed` are there too: their methods are each model's own.
// Kept: the bounds of indices (`e < 64`, `i < 8`): each is a loop's own, and a type for it would be made at each turn.
fn jet_at(table: &[f64; 512], e: usize) -> Jet
    requires { e < 64 }
    ensures { result ≡ jet_at table.now 0 e }
{
    Jet {
        v: table[e],
        d: table[64 + e],
        dd: table[128 + e],
    }
}

fn two_at(table: &[f64; 512], e: usize) -> Jet
    requires { e < 64 }
    ensures { result ≡ two_at table.now 0 e }
{
    Jet::two(table[e], table[64 + e])
}

// A table, and the mole fractions x of its solvents.
#[derive(Clone, Copy)]
struct Liquid<'a> {
    table: &'a [f64; 512],
    x: &'a [f64; 8],
    m: Count,
}

impl Liquid<'_> {
    // Λ_ij times x_j.
    fn part(self, i: usize, j: usize) -> Jet
        requires { (i < 8) × (j < 8) }
        ensures { let q = self.entry in result ≡ scale_j (jets q.table.now 0 i j) (at q.x.now j) }
    {
        jet_at(self.table, i * 8 + j).scale(self.x[j])
    }

    // S of W solvents from i on, side by side: their sums don't depend on each other, so the machine's lanes share the loop.
    // Kept: `for`s, here and below, as in nrtl: each turn adds to a sum or to the entries of one array. Sums are flat, four floats of
    // solvent i from i * 4 on, as the definitions read them.
    #[inline(always)]
    #[tactic(auto, unfolding(crate::specs::Sums::row_s, floats::specs::Fold::fold_to))]
    fn row_sums<const W: usize>(self, i: usize) -> [Jet; W]
        requires { i + W ≤ 8 }
        ensures { let q = self.entry in Side (row_s (jets q.table.now 0) (at q.x.now) q.m.n) i W result }
    {
        let mut s = [Jet::constant(0.0); W];
        for j in 0..self.m.n {
            for w in 0..W {
                s[w] = s[w] + self.part(i + w, j);
            }
        }
        s
    }

    // S of each.
    // Kept: a pass of its own: with the logarithms in it an activity of six and seven solvents takes a sixth longer. The array is
    // the caller's: by value its 192 bytes are copied by a call of memcpy.
    #[inline(always)]
    fn fill_rows(self, rows: &mut [Jet; 8])
        ensures { let q = self.entry in (k : ℕ) → k < q.m.n → jet_of rows.new k ≡ s_on q.table.now (at q.x.now) q.m.n k }
    {
        let n = self.m.n;
        for h in 0..n / 2 {
            let [s, r] = self.row_sums::<2>(2 * h);
            rows[2 * h] = s;
            rows[2 * h + 1] = r;
        }
        if n % 2 == 1 {
            let [s] = self.row_sums::<1>(n - 1);
            rows[n - 1] = s;
        }
    }

    // S_i and its logarithm l into `sums`; the next partial sum of x_i ln S_i.
    fn keep_sum(self, total: Jet, i: usize, s: Jet, l: Jet, sums: &mut [f64; 32]) -> Jet
        requires { i < 8 }
        ensures { SumTurn (λ _. s) (λ _. l) (at self.entry.x.now) i total result sums.old sums.new }
    {
        sums[i * 4] = s.v;
        sums[i * 4 + 1] = s.d;
        sums[i * 4 + 2] = l.v;
        sums[i * 4 + 3] = l.d;
        total + l.scale(self.x[i])
    }

    // Two solvents to a step: their logarithms side by side.
    #[inline(always)]
    #[tactic(auto, unfolding(floats::specs::Fold::fold_to))]
    fn fill_sums(self, sums: &mut [f64; 32]) -> Jet
        ensures { let q = self.entry in SumsTo (s_on q.table.now (at q.x.now) q.m.n) (ln_s_on q.table.now (at q.x.now) q.m.n) (at q.x.now) q.m.n result sums.old sums.new }
    {
        let n = self.m.n;
        let mut rows = [Jet::constant(0.0); 8];
        self.fill_rows(&mut rows);
        let mut total = Jet::constant(0.0);
        for h in 0..n / 2 {
            let (i, j) = (2 * h, 2 * h + 1);
            let (s, r) = (rows[i], rows[j]);
            let (k, l) = numerics::ln_two(s.v, r.v);
            total = self.keep_sum(total, i, s, s.ln_with(k), sums);
            total = self.keep_sum(total, j, r, r.ln_with(l), sums);
        }
        if n % 2 == 1 {
            let s = rows[n - 1];
            total = self.keep_sum(total, n - 1, s, s.ln(), sums);
        }
        total
    }
}

// ---- ln γ: value and slope; the second derivative isn't asked for

fn two_of(sums: &[f64; 32], k: usize) -> Jet
    requires { k ≤ 30 }
    ensures { result ≡ two_of sums.now k }
{
    Jet::two(sums[k], sums[k + 1])
}

// One array after the other: that way neighbors of one are one store.
#[tactic(auto, unfolding(floats::specs::Vector::fill_from))]
fn keep_lns<const W: usize>(l: [Jet; W], i: usize, ln_gamma: &mut [f64; 8], slopes: &mut [f64; 8])
    requires { i + W ≤ 8 }
    ensures values { ln_gamma.new ≡ fill_from (λ w. (jet_of l.entry w).v) i W ln_gamma.old }
    ensures slopes { slopes.new ≡ fill_from (λ w. (jet_of l.entry w).d) i W slopes.old }
{
    for w in 0..W {
        ln_gamma[i + w] = l[w].v;
    }
    for w in 0..W {
        slopes[i + w] = l[w].d;
    }
}

// A liquid with its sums S and ln S.
#[derive(Clone, Copy)]
struct Summed<'a> {
    of: Liquid<'a>,
    sums: &'a [f64; 32],
}

impl Summed<'_> {
    // x_k Λ_ki / S_k.
    fn quotient_at(self, k: usize, i: usize) -> Jet
        requires { (k < 8) × (i < 8) }
        ensures { let q = self.entry in result ≡ div_j (scale_j (twos q.of.table.now 0 k i) (at q.of.x.now k)) (s_in q.sums.now k) }
    {
        two_at(self.of.table, k * 8 + i).scale(self.of.x[k]) / two_of(self.sums, k * 4)
    }

    // Of W solvents from i on, side by side.
    #[inline(always)]
    #[tactic(auto, unfolding(crate::specs::Sums::quotients, floats::specs::Fold::fold_to))]
    fn quotients_from<const W: usize>(self, i: usize) -> [Jet; W]
        requires { i + W ≤ 8 }
        ensures { let q = self.entry in Side (quotients (twos q.of.table.now 0) (s_in q.sums.now) (at q.of.x.now) q.of.m.n) i W result }
    {
        let mut q = [Jet::constant(0.0); W];
        for k in 0..self.of.m.n {
            for w in 0..W {
                q[w] = q[w] + self.quotient_at(k, i + w);
            }
        }
        q
    }

    // 1 − ln S_i − q.
    fn ln_gamma_from(self, q: Jet, i: usize) -> Jet
        requires { i < 8 }
        ensures { result ≡ sub_j (sub_j (const_j 1f) (r_in self.entry.sums.now i)) q }
    {
        Jet::constant(1.0) - two_of(self.sums, i * 4 + 2) - q
    }

    #[inline(always)]
    #[tactic(auto, unfolding(crate::specs::Sums::wilson_from))]
    fn lns_from<const W: usize>(self, i: usize) -> [Jet; W]
        requires { i + W ≤ 8 }
        ensures { let q = self.entry in Side (wilson_from (twos q.of.table.now 0) (s_in q.sums.now) (r_in q.sums.now) (at q.of.x.now) q.of.m.n) i W result }
    {
        let mut l = self.quotients_from::<W>(i);
        for w in 0..W {
            l[w] = self.ln_gamma_from(l[w], i + w);
        }
        l
    }

    #[inline(always)]
    #[tactic(auto, unfolding(floats::specs::Vector::fill))]
    fn fill_lns(self, ln_gamma: &mut [f64; 8], slopes: &mut [f64; 8])
        ensures { let q = self.entry in GammasTo (wilson_from (twos q.of.table.now 0) (s_in q.sums.now) (r_in q.sums.now) (at q.of.x.now) q.of.m.n) q.of.m.n ln_gamma.old slopes.old ln_gamma.new slopes.new }
    {
        let n = self.of.m.n;
        for h in 0..n / 4 {
            keep_lns(self.lns_from::<4>(4 * h), 4 * h, ln_gamma, slopes);
        }
        let i = n / 4 * 4;
        if n % 4 >= 2 {
            keep_lns(self.lns_from::<2>(i), i, ln_gamma, slopes);
        }
        if n % 2 == 1 {
            keep_lns(self.lns_from::<1>(n - 1), n - 1, ln_gamma, slopes);
        }
    }
}

// ---- the state

// ln γ, slopes and energies of the liquid, into arrays that hold 0.0 everywhere.
// Kept: the arrays are the caller's, as in crate excess, which has the figures: by value an activity of two solvents takes 95 ns
// for 68.
#[inline(always)]
fn state(
    of: Liquid,
    t: Temperature,
    ln_gamma: &mut [f64; 8],
    slopes: &mut [f64; 8],
) -> Result<Energies, Refusal>
    requires { (ln_gamma.now ≡ zeros8) × (slopes.now ≡ zeros8) }
    ensures { let q = of.entry in Gives (state_from (reduced_on q.table.now (at q.x.now) q.m.n) (ln_gamma_on q.table.now (at q.x.now) q.m.n) q.m.n t.0) result ln_gamma.new slopes.new }
{
    let mut sums = [0.0; 32];
    let total = of.fill_sums(&mut sums);
    Summed { of, sums: &sums }.fill_lns(ln_gamma, slopes);
    excess::finite_state(-total, of.m.n, t, ln_gamma, slopes)
}

// Kept: arms of one text, as in nrtl: by a number of solvents that is known each loop is unrolled.
fn state_by_count(
    of: Liquid,
    t: Temperature,
    ln_gamma: &mut [f64; 8],
    slopes: &mut [f64; 8],
) -> Result<Energies, Refusal>
    requires { (ln_gamma.now ≡ zeros8) × (slopes.now ≡ zeros8) }
    ensures { let q = of.entry in Gives (state_from (reduced_on q.table.now (at q.x.now) q.m.n) (ln_gamma_on q.table.now (at q.x.now) q.m.n) q.m.n t.0) result ln_gamma.new slopes.new }
{
    match of.m.n {
        1 => state(of, t, ln_gamma, slopes),
        2 => state(of, t, ln_gamma, slopes),
        3 => state(of, t, ln_gamma, slopes),
        4 => state(of, t, ln_gamma, slopes),
        5 => state(of, t, ln_gamma, slopes),
        6 => state(of, t, ln_gamma, slopes),
        7 => state(of, t, ln_gamma, slopes),
        8 => state(of, t, ln_gamma, slopes),
        _ => state(of, t, ln_gamma, slopes),
    }
}

// ln γ and slopes (1/K), 0.0 past n, and the energies at t and the mole fractions x, from a table.
pub fn excess(
    table: &[f64; 512],
    n: usize,
    t: Temperature,
    x: &[f64; 8],
    ln_gamma: &mut [f64; 8],
    slopes: &mut [f64; 8],
) -> Result<Energies, Refusal>
    ensures { Gives (wilson_on table.now (places n) t.0 (at x.now)) result ln_gamma.new slopes.new }
{
    excess::clear(ln_gamma, slopes);
    excess::with_state(t, x, n)?;
    let m = Count::of(n);
    state_by_count(Liquid { table, x, m }, t, ln_gamma, slopes)
}
