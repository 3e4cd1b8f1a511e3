// A value with its first and second temperature derivatives (the Rust's `Jet`): methods and operators equal their
// definitions in specs/Jets.antt. Tables of ordered pairs: planes of 64, entry (i, j) of plane k at k * 64 + i * 8 + j.
#![tactic(auto)]

ghost use Rattle.std.specs.Prelude.{◌≡◌, ℕ, ◌≤◌, ◌<◌, ◌+◌, ◌*◌, ◌%◌, List, Float};
ghost use Rattle.floats.specs.Vector.{at};
ghost use Rattle.jet.specs.Jets.{const_j, two_j, add_j, sub_j, neg_j, mul_j, scale_j, div_j, exp_with, exp_j, ln_with, ln_j};
ghost use Rattle.jet.specs.Planes.{Holds, six, spread, plane_pairs, plane_rows};
ghost use Rattle.jet.specs.Lanes.{two_of, first_of, second_of, raised_two, lane_of, lane_in, laid_border, laid, triangle, raised_to, Lies, AllLie, cell_in};

use floats::Count;
use std::ops::{Add, Div, Mul, Neg, Sub};

// A quantity with its derivatives by the temperature, 1/K and 1/K².
#[derive(Clone, Copy)]
pub struct Jet {
    pub v: f64,
    pub d: f64,
    pub dd: f64,
}

impl Jet {
    // A number that doesn't depend on the temperature.
    #[tactic(auto, unfolding(crate::specs::Jets::const_j, crate::specs::Jets::two_j))]
    pub fn constant(v: f64) -> Self
        ensures { result ≡ const_j v }
    {
        Self::two(v, 0.0)
    }

    // Value and first derivative alone.
    #[tactic(auto, unfolding(crate::specs::Jets::two_j))]
    pub fn two(v: f64, slope: f64) -> Self
        ensures { result ≡ two_j v slope }
    {
        Self {
            v,
            d: slope,
            dd: 0.0,
        }
    }

    #[tactic(auto, unfolding(crate::specs::Jets::scale_j))]
    pub fn scale(self, x: f64) -> Jet
        ensures { result ≡ scale_j self x }
    {
        Jet {
            v: self.v * x,
            d: self.d * x,
            dd: self.dd * x,
        }
    }

    // exp of self, where e is exp of its value.
    #[tactic(auto, unfolding(crate::specs::Jets::exp_with))]
    pub fn exp_with(self, e: f64) -> Jet
        ensures { result ≡ exp_with e self }
    {
        Jet {
            v: e,
            d: e * self.d,
            dd: e * (self.dd + self.d * self.d),
        }
    }

    pub fn exp(self) -> Jet
        ensures { result ≡ exp_j self }
    {
        self.exp_with(numerics::exp(self.v))
    }

    // ln of self, where l is ln of its value.
    #[tactic(auto, unfolding(crate::specs::Jets::ln_with))]
    pub fn ln_with(self, l: f64) -> Jet
        ensures { result ≡ ln_with l self }
    {
        Jet {
            v: l,
            d: self.d / self.v,
            dd: (self.dd - self.d * self.d / self.v) / self.v,
        }
    }

    pub fn ln(self) -> Jet
        ensures { result ≡ ln_j self }
    {
        self.ln_with(numerics::ln(self.v))
    }
}

impl Add for Jet {
    type Output = Jet;

    ghost add_gives = { λ a b r. r ≡ add_j a b };

    #[tactic(auto, unfolding(crate::specs::Jets::add_j))]
    fn add(self, o: Jet) -> Jet {
        Jet {
            v: self.v + o.v,
            d: self.d + o.d,
            dd: self.dd + o.dd,
        }
    }
}

impl Sub for Jet {
    type Output = Jet;

    ghost sub_gives = { λ a b r. r ≡ sub_j a b };

    #[tactic(auto, unfolding(crate::specs::Jets::sub_j))]
    fn sub(self, o: Jet) -> Jet {
        Jet {
            v: self.v - o.v,
            d: self.d - o.d,
            dd: self.dd - o.dd,
        }
    }
}

impl Mul for Jet {
    type Output = Jet;

    ghost mul_gives = { λ a b r. r ≡ mul_j a b };

    #[tactic(auto, unfolding(crate::specs::Jets::mul_j))]
    fn mul(self, o: Jet) -> Jet {
        Jet {
            v: self.v * o.v,
            d: self.d * o.v + self.v * o.d,
            dd: self.dd * o.v + 2.0 * self.d * o.d + self.v * o.dd,
        }
    }
}

impl Div for Jet {
    type Output = Jet;

    ghost div_gives = { λ a b r. r ≡ div_j a b };

    #[tactic(auto, unfolding(crate::specs::Jets::div_j))]
    fn div(self, o: Jet) -> Jet {
        let q = self.v / o.v;
        let d = (self.d - q * o.d) / o.v;
        let dd = (self.dd - 2.0 * d * o.d - q * o.dd) / o.v;
        Jet { v: q, d, dd }
    }
}

impl Neg for Jet {
    type Output = Jet;

    ghost neg_gives = { λ a r. r ≡ neg_j a };

    #[tactic(auto, unfolding(crate::specs::Jets::neg_j))]
    fn neg(self) -> Jet {
        Jet {
            v: -self.v,
            d: -self.d,
            dd: -self.dd,
        }
    }
}

// ---- tables of ordered pairs

// What a table keeps of each ordered pair, in M planes.
pub trait Pairs<const M: usize> {
    ghost use Rattle.jet.specs.declared.Jet.{Jet};

    ghost cells: { Self → List Float → ℕ → Float };

    ghost own_cells: { Self → ℕ → Float };

    // Of a pair's six parameters: what is kept beside, and the exponent of what is kept.
    ghost beside_of: { Self → List Float → Jet };

    ghost exponent_of: { Self → List Float → Jet };

    ghost made_of: { Self → Jet → Jet → ℕ → Float };

    fn beside(&self, p: [f64; 6]) -> Jet
        ensures { result ≡ beside_of self.now p };

    fn exponent(&self, p: [f64; 6]) -> Jet
        ensures { result ≡ exponent_of self.now p };

    // The cells, from what is kept beside and from the exponential g.
    fn made(&self, a: Jet, g: Jet) -> [f64; M]
        ensures { Holds (made_of self.now a g) M result };

    // Of a solvent with itself.
    fn own(&self) -> [f64; M]
        ensures { Holds (own_cells self.now) M result };

    ghost makes: { (s : Self) (p : List Float) → made_of s (beside_of s p) (exp_j (exponent_of s p)) ≡ cells s p };

    ghost few: { M ≤ 8 };
}

// The six parameters of each ordered pair of some solvents.
pub trait Source {
    ghost size: { Self → ℕ };

    ghost six: { Self → ℕ → ℕ → List Float };

    fn count(&self) -> Count
        ensures { result.n ≡ size self.now };

    // Of (i, j) and of (j, i), where i < j below the count; nothing is said of others.
    fn both(&self, i: usize, j: usize) -> ([f64; 6], [f64; 6])
        ensures first { i < j → j < size self.now → result.0 ≡ six self.now i j }
        ensures second { i < j → j < size self.now → result.1 ≡ six self.now j i };
}

// Two Jets, like parts side by side, so that both are worked out at once.
#[derive(Clone, Copy)]
struct Two {
    v0: f64,
    v1: f64,
    d0: f64,
    d1: f64,
    dd0: f64,
    dd1: f64,
}

impl Two {
    #[tactic(auto, unfolding(crate::specs::Lanes::two_of))]
    fn of(a: Jet, b: Jet) -> Two
        ensures { result ≡ two_of a b }
    {
        Two {
            v0: a.v,
            v1: b.v,
            d0: a.d,
            d1: b.d,
            dd0: a.dd,
            dd1: b.dd,
        }
    }

    #[tactic(auto, unfolding(crate::specs::Lanes::first_of))]
    fn first(self) -> Jet
        ensures { result ≡ first_of self }
    {
        Jet {
            v: self.v0,
            d: self.d0,
            dd: self.dd0,
        }
    }

    #[tactic(auto, unfolding(crate::specs::Lanes::second_of))]
    fn second(self) -> Jet
        ensures { result ≡ second_of self }
    {
        Jet {
            v: self.v1,
            d: self.d1,
            dd: self.dd1,
        }
    }

    // The exponentials of the values in their place.
    #[inline(always)]
    #[tactic(auto, unfolding(crate::specs::Lanes::raised_two))]
    fn raised(self) -> Two
        ensures { result ≡ raised_two self }
    {
        let (v0, v1) = numerics::exp_two(self.v0, self.v1);
        Two { v0, v1, ..self }
    }
}

// Of a pair of solvents, both ways: what is kept beside, and the exponents.
#[derive(Clone, Copy)]
struct Lane {
    beside: Two,
    exponent: Two,
}

// The six parameters of the pair (i, j), from (i * 8 + j) * 6 on; indices modulo 8.
pub fn pair(parameters: &[f64; 384], i: usize, j: usize) -> [f64; 6]
    ensures { result ≡ six parameters.now (i % 8 * 8 + j % 8) }
{
    let e = (i % 8 * 8 + j % 8) * 6;
    std::array::from_fn(|k| parameters[e + k])
}

// Those of the first m solvents in a flat plane.
#[derive(Clone, Copy)]
pub struct Plane<'a> {
    pub parameters: &'a [f64; 384],
    pub m: Count,
}

impl Source for Plane<'_> {
    ghost size = { λ s. s.m.n };

    ghost six = { λ s i j. six s.parameters.now (i % 8 * 8 + j % 8) };

    fn count(&self) -> Count {
        self.m
    }

    fn both(&self, i: usize, j: usize) -> ([f64; 6], [f64; 6]) {
        (pair(self.parameters, i, j), pair(self.parameters, j, i))
    }
}

fn started<const M: usize, P: Pairs<M>>(pairs: &P, p: [f64; 6], q: [f64; 6]) -> Lane
    ensures { result ≡ lane_of (P.beside_of pairs.now) (P.exponent_of pairs.now) p q }
{
    Lane {
        beside: Two::of(pairs.beside(p), pairs.beside(q)),
        exponent: Two::of(pairs.exponent(p), pairs.exponent(q)),
    }
}

// The lanes of the pairs (j, i) for j below i, from place q on.
#[tactic(auto, unfolding(floats::specs::Fold::fold_to))]
fn lay_border<const M: usize, const K: usize, P: Pairs<M>, S: Source>(
    pairs: &P,
    source: &S,
    i: usize,
    q: usize,
    lanes: &mut [Lane; K],
)
    requires { (i < S.size source.now) × (q + i ≤ K) }
    ensures { lanes.new ≡ laid_border (lane_in (P.beside_of pairs.now) (P.exponent_of pairs.now) (S.six source.now)) i q i lanes.old }
{
    for j in 0..i {
        let (a, b) = source.both(j, i);
        lanes[q + j] = started(pairs, a, b);
    }
}

// Those of all pairs (j, i), j < i, row by row; how many.
#[tactic(auto, unfolding(floats::specs::Fold::fold_to))]
fn lay<const M: usize, const K: usize, P: Pairs<M>, S: Source>(
    pairs: &P,
    source: &S,
    n: usize,
    lanes: &mut [Lane; K],
) -> usize
    requires { (n ≤ S.size source.now) × (triangle n ≤ K) × (K ≤ 28) }
    ensures count { result ≡ triangle n }
    ensures lanes { lanes.new ≡ laid (lane_in (P.beside_of pairs.now) (P.exponent_of pairs.now) (S.six source.now)) n lanes.old }
{
    let mut q = 0;
    for i in 0..n {
        lay_border(pairs, source, i, q, lanes);
        q += i;
    }
    q
}

// The exponentials of the first `count`, in a loop of their own, whose turns overlap.
#[tactic(auto, unfolding(floats::specs::Fold::fold_to, crate::specs::Lanes::raised_lane))]
fn raise<const K: usize>(count: usize, lanes: &mut [Lane; K])
    requires { count ≤ K }
    ensures { lanes.new ≡ raised_to count lanes.old }
{
    for k in 0..count {
        lanes[k].exponent = lanes[k].exponent.raised();
    }
}

// Kept: by index, here and below: the cells of a pair lie 64 apart in a flat table, the caller's memory. i, j and e are a loop's
// own; a type for them would be made at each turn.
#[tactic(auto, unfolding(floats::specs::Fold::fold_to))]
fn keep<const M: usize>(cells: [f64; M], e: usize, table: &mut [f64; 512])
    requires { (M ≤ 8) × (e < 64) }
    ensures { table.new ≡ spread (at cells.entry) e M table.old }
{
    for k in 0..M {
        table[k * 64 + e] = cells[k];
    }
}

// Row i up to the diagonal, and column i, from the lanes at q on.
#[tactic(auto, unfolding(floats::specs::Fold::fold_to))]
fn fill_border<const M: usize, const K: usize, P: Pairs<M>>(
    pairs: &P,
    lanes: &[Lane; K],
    i: usize,
    q: usize,
    table: &mut [f64; 512],
)
    requires { (i < 8) × (q + i ≤ K) }
    ensures { (f : ℕ → ℕ → ℕ → Float) → Lies (P.made_of pairs.now) lanes.now f i q i → table.new ≡ plane_pairs f M i i table.old }
{
    for j in 0..i {
        let l = lanes[q + j];
        let (u, v) = (l.exponent.first(), l.exponent.second());
        let b = pairs.made(l.beside.second(), v.exp_with(v.v));
        keep(b, i * 8 + j, table);
        let a = pairs.made(l.beside.first(), u.exp_with(u.v));
        keep(a, j * 8 + i, table);
    }
}

// All rows.
#[tactic(auto, unfolding(floats::specs::Fold::fold_to))]
fn fill_rows<const M: usize, const K: usize, P: Pairs<M>>(
    pairs: &P,
    lanes: &[Lane; K],
    m: Count,
    table: &mut [f64; 512],
)
    requires { (triangle m.n ≤ K) × (K ≤ 28) }
    ensures { (f : ℕ → ℕ → ℕ → Float) → AllLie (P.made_of pairs.now) (P.own_cells pairs.now) lanes.now f m.n → table.new ≡ plane_rows f M m.n m.n table.old }
{
    let mut q = 0;
    for i in 0..m.n {
        fill_border(pairs, lanes, i, q, table);
        keep(pairs.own(), i * 8 + i, table);
        q += i;
    }
}

// Parameters to lanes, their exponentials, lanes to cells: three loops, each over all pairs.
fn fill_lanes<const M: usize, const K: usize, P: Pairs<M>, S: Source>(
    pairs: &P,
    source: &S,
    m: Count,
    table: &mut [f64; 512],
)
    requires { (m.n ≡ S.size source.now) × (triangle m.n ≤ K) × (K ≤ 28) }
    ensures { table.new ≡ plane_rows (cell_in (P.cells pairs.now) (P.own_cells pairs.now) (S.six source.now)) M m.n m.n table.old }
{
    let none = Two::of(Jet::constant(0.0), Jet::constant(0.0));
    let mut lanes = [Lane {
        beside: none,
        exponent: none,
    }; K];
    let count = lay(pairs, source, m.n, &mut lanes);
    raise(count, &mut lanes);
    fill_rows(pairs, &lanes, m, table);
}

// All ordered pairs of the source; the table's other places stay as they are.
pub fn fill_from<const M: usize, P: Pairs<M>, S: Source>(
    pairs: &P,
    source: &S,
    table: &mut [f64; 512],
)
    ensures { table.new ≡ plane_rows (cell_in (P.cells pairs.now) (P.own_cells pairs.now) (S.six source.now)) M (S.size source.now) (S.size source.now) table.old }
{
    let m = source.count();
    // Kept: room for the pairs of 2, 4 and 8 solvents: cleared for 28 pairs, the lanes of one pair cost as much as its cells.
    if m.n <= 2 {
        fill_lanes::<M, 1, P, S>(pairs, source, m, table);
    } else if m.n <= 4 {
        fill_lanes::<M, 6, P, S>(pairs, source, m, table);
    } else {
        fill_lanes::<M, 28, P, S>(pairs, source, m, table);
    }
}
