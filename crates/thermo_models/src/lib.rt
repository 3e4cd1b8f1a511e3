// What the solvers ask of the models: the domain, the pure liquids, excess state and activity from the tables of a
// temperature, and validity (models/activity.rs, nrtl.rs).
#![tactic(auto)]

ghost use Rattle.std.specs.Prelude.{◌≡◌, ◌<◌, true, not, ◌&&◌};
ghost use Rattle.std.specs.Float.Ieee.{le};
ghost use Rattle.floats.specs.Arithmetic.{0f};
ghost use Rattle.floats.specs.Small.{is_finite};
ghost use Rattle.floats.specs.Fold.{all_to};
ghost use Rattle.floats.specs.Vector.{at, vec, places};
ghost use Rattle.numerics.specs.Numerics.{exp_of};
ghost use Rattle.records.specs.Offered.{offered_place, with_pair};
ghost use Rattle.records.specs.Parameters.{parameters_of};
ghost use Rattle.records.specs.Sources.{Reads};
ghost use Rattle.liquid.specs.Vapor.{vapor_of};
ghost use Rattle.excess.specs.Answers.{GivesBy};
ghost use Rattle.outcome.specs.Refused.{outcome_of, outcome_by};
ghost use Rattle.thermo_models.specs.Model.{pressure_in_domain};
ghost use Rattle.thermo_models.specs.Domain.{vapor_record, solvent_covers, temperature_in_domain, pures_to, pure_liquids_of};
ghost use Rattle.thermo_models.specs.Activity.{excess_by_reason, activity_by_reason, settled_of, Stands};
ghost use Rattle.thermo_models.specs.Validity.{noted, visited, row_seen, all_seen, status_of, validity_of};

use book::Model;
use excess::Energies;
use floats::Count;
use outcome::{Reason, Refusal};
use records::{Interval, NrtlPairs, WholePairs, WilsonPairs};
use thermo_types::{HIGHEST_KELVIN, LOWEST_KELVIN, Temperature};

// ---- the domain of temperatures and pressures

#[tactic(auto, unfolding(crate::specs::Domain::solvent_covers))]
fn solvent_covers(book: &[u8], t: f64, i: usize) -> bool
    ensures { result ≡ solvent_covers book.now t i }
{
    let a = records::vapor_pressure_range(book, i);
    let b = records::density_range(book, i);
    liquid::in_range(a.0, a.1, t) & liquid::in_range(b.0, b.1, t)
}

// The solvents of a book, at a temperature in K.
#[derive(Clone, Copy)]
struct Solvents<'a> {
    book: &'a [u8],
    m: Count,
    t: f64,
}

impl Solvents<'_> {
    fn all_cover(self) -> bool
        ensures { let s = self.entry in result ≡ all_to (solvent_covers s.book.now s.t) s.m.n }
    {
        (0..self.m.n).all(|i| solvent_covers(self.book, self.t, i))
    }
}

// The model's temperatures and the two ranges of every solvent, absent ones too.
#[tactic(auto, unfolding(crate::specs::Domain::temperature_in_domain))]
pub fn check_temperature(book: &[u8], n: usize, t: Temperature) -> bool
    ensures { result ≡ temperature_in_domain book.now (places n) t.0 }
{
    let (m, t) = (Count::of(n), t.value());
    liquid::in_range(LOWEST_KELVIN, HIGHEST_KELVIN, t) & Solvents { book, m, t }.all_cover()
}

// ACTIVITY_PRESSURE_RANGE_PA.
const LOWEST_PASCAL: f64 = 100.0;

const HIGHEST_PASCAL: f64 = 500000.0;

#[tactic(auto, unfolding(crate::specs::Model::pressure_in_domain, liquid::specs::Vapor::in_range))]
pub fn check_pressure(p: f64) -> bool
    ensures { result ≡ pressure_in_domain p }
{
    liquid::in_range(LOWEST_PASCAL, HIGHEST_PASCAL, p)
}

// ---- the pure liquids at a temperature

// p_i^sat, Pa, and d ln p_i^sat/dT, 1/K.
#[derive(Clone, Copy)]
pub struct PurePressures {
    pub pressure: [f64; 8],
    pub slope: [f64; 8],
}

// p of ln p, two solvents to a step.
// Kept: `numerics::exps` says nothing of the entries past n, so that a loop that clears them would follow it, and an odd n has one exp more.
#[tactic(auto, unfolding(floats::specs::Vector::fill))]
fn pressures(ls: &[f64; 8], m: Count) -> [f64; 8]
    ensures { result ≡ vec (λ i. exp_of (at ls.now i)) m.n }
{
    let mut ps = [0.0; 8];
    for i in 0..m.n / 2 {
        (ps[2 * i], ps[2 * i + 1]) = numerics::exp_two(ls[2 * i], ls[2 * i + 1]);
    }
    if m.n % 2 == 1 {
        ps[m.n - 1] = numerics::exp(ls[m.n - 1]);
    }
    ps
}

fn all_representable(ps: &[f64; 8], ls: &[f64; 8], dps: &[f64; 8], cs: &[f64; 8], m: Count) -> bool
    ensures { result ≡ all_to (λ i. is_finite (at ps.now i) && is_finite (at ls.now i) && is_finite (at dps.now i) && is_finite (at cs.now i) && not (le (at ps.now i) 0f)) m.n }
{
    (0..m.n).all(|i| liquid::is_representable(ps[i], ls[i], dps[i], cs[i]))
}

impl Solvents<'_> {
    // ln p and its two derivatives of each.
    // Kept: the slopes are the answer's own array; as [Logarithm; 8] they would be copied out of it in a loop more.
    #[tactic(auto, unfolding(floats::specs::Vector::fill))]
    fn fill_logarithms(self, ls: &mut [f64; 8], dps: &mut [f64; 8], cs: &mut [f64; 8])
        ensures ls_after { let s = self.entry in ls.new ≡ vec (λ i. (vapor_of (vapor_record s.book.now i) s.t).ln.value) s.m.n }
        ensures dps_after { let s = self.entry in dps.new ≡ vec (λ i. (vapor_of (vapor_record s.book.now i) s.t).ln.slope) s.m.n }
        ensures cs_after { let s = self.entry in cs.new ≡ vec (λ i. (vapor_of (vapor_record s.book.now i) s.t).ln.curvature) s.m.n }
    {
        *ls = [0.0; 8];
        *dps = [0.0; 8];
        *cs = [0.0; 8];
        for i in 0..self.m.n {
            let l = liquid::ln_pressure(records::vapor_pressure_record(self.book, i), self.t);
            ls[i] = l.value;
            dps[i] = l.slope;
            cs[i] = l.curvature;
        }
    }

    // In the ranges of all: 25 where a vapor pressure isn't representable.
    fn pures(self) -> Result<PurePressures, Refusal>
        requires { all_to (solvent_covers self.book.now self.t) self.m.n ≡ true }
        ensures { let s = self.entry in outcome_of result ≡ pures_to s.book.now s.t s.m.n }
    {
        let mut ls = [0.0; 8];
        let mut slope = [0.0; 8];
        let mut cs = [0.0; 8];
        self.fill_logarithms(&mut ls, &mut slope, &mut cs);
        let pressure = pressures(&ls, self.m);
        if !all_representable(&pressure, &ls, &slope, &cs, self.m) {
            return Err(Refusal::ResultNotFinite);
        }
        Ok(PurePressures { pressure, slope })
    }
}

// The pure liquids of the book's first n solvents at t: 22, then 25.
#[tactic(auto, unfolding(crate::specs::Domain::pure_liquids_of, floats::specs::Outcome::need))]
pub fn pure_liquids(book: &[u8], n: usize, t: Temperature) -> Result<PurePressures, Refusal>
    ensures { outcome_of result ≡ pure_liquids_of book.now (places n) t.0 }
{
    if !check_temperature(book, n, t) {
        return Err(Refusal::TemperatureOutside);
    }
    let (m, t) = (Count::of(n), t.value());
    Solvents { book, m, t }.pures()
}

// ---- excess state and activity

// ln γ_i of a composition, and its slope by T at fixed x, 1/K.
#[derive(Clone, Copy)]
pub struct ActivityCoefficients {
    pub ln_gamma: [f64; 8],
    pub slopes: [f64; 8],
}

// What a table stands for: the model, whether its parameters passed, n solvents, T. `tables` says a refusal of its α; whoever has
// them from elsewhere may say a reason of his own, which the solvers hand on.
#[derive(Clone, Copy)]
pub struct Tabled<E = Refusal> {
    pub model: Model,
    pub alphas: Result<(), E>,
    pub n: usize,
    pub t: Temperature,
}

// The tables of the parameters at t by the book's model, worked out once per temperature; what NRTL says of its α is carried in `alphas`.
pub fn tables(
    book: &[u8],
    parameters: &[f64; 384],
    n: usize,
    t: Temperature,
    table: &mut [f64; 512],
) -> Tabled
    ensures { Stands book.now parameters.now (places n) t result table.old table.new }
{
    let model = book::model_of(book);
    // Kept: a match: the definition by cases, here and in `excess`.
    let alphas = match model {
        Model::Nrtl => nrtl_tables::tables(parameters, n, t, table),
        Model::Wilson => {
            wilson_tables::tables(parameters, n, t, table);
            Ok(())
        }
    };
    Tabled {
        model,
        alphas,
        n: floats::places(n),
        t,
    }
}

// The same, read from the pairs' blocks where they stand.
fn whole_tables(
    book: &[u8],
    pairs: WholePairs,
    n: usize,
    t: Temperature,
    table: &mut [f64; 512],
) -> Tabled
    requires { Reads pairs.blocks.now pairs.m.n book.now (places n) }
    ensures { Stands book.now (parameters_of book.now (places n)) (places n) t result table.old table.new }
{
    let model = book::model_of(book);
    let alphas = match model {
        Model::Nrtl => nrtl_tables::tables_from::<NrtlPairs>(&NrtlPairs(pairs), t, table),
        Model::Wilson => {
            wilson_tables::tables_from::<WilsonPairs>(&WilsonPairs(pairs), t, table);
            Ok(())
        }
    };
    Tabled {
        model,
        alphas,
        n: floats::places(n),
        t,
    }
}

// Kept: a function of its own: in `book_tables` the plane would be cleared at each call, 30 ns, also where it isn't used.
fn plane_tables(
    book: &[u8],
    offered: &[u8],
    n: usize,
    t: Temperature,
    table: &mut [f64; 512],
) -> Tabled
    ensures { Stands book.now (parameters_of (with_pair (places n) book.now offered.now) (places n)) (places n) t result table.old table.new }
{
    let mut parameters = [0.0; 384];
    records::parameters(book, offered, n, &mut parameters);
    tables(book, &parameters, n, t, table)
}

// The tables of a book of n solvents at t, a pair offered in the place of its own: as by `records::parameters` and `tables`, and
// with nothing offered without that plane between.
pub fn book_tables(
    book: &[u8],
    offered: &[u8],
    n: usize,
    t: Temperature,
    table: &mut [f64; 512],
) -> Tabled
    ensures { Stands book.now (parameters_of (with_pair (places n) book.now offered.now) (places n)) (places n) t result table.old table.new }
{
    if offered.is_empty() {
        if let Some(pairs) = WholePairs::of(book, n) {
            return whole_tables(book, pairs, n, t, table);
        }
    }
    plane_tables(book, offered, n, t, table)
}

// ln γ, slopes and energies of x, from a table and what it stands for.
// Kept: a table and what it stands for are two parameters of each public call, since `tables` fills the one and gives the other.
// ln γ and slopes go into the caller's arrays, as in the models: by value they take 26 ns more here, half of an activity of two.
#[tactic(auto, unfolding(crate::specs::Activity::excess_by_reason, crate::specs::Activity::model_on))]
pub fn excess<E: Reason>(
    table: &[f64; 512],
    s: Tabled<E>,
    x: &[f64; 8],
    lg: &mut [f64; 8],
    sl: &mut [f64; 8],
) -> Result<Energies, E>
    ensures { GivesBy E.said (excess_by_reason E.said table.now s x.now) result lg.new sl.new }
{
    match s.model {
        Model::Nrtl => nrtl::excess(table, s.alphas, s.n, s.t, x, lg, sl),
        Model::Wilson => Ok(wilson::excess(table, s.n, s.t, x, lg, sl)?),
    }
}

// ln γ and slopes alone.
pub fn activity<E: Reason>(
    table: &[f64; 512],
    s: Tabled<E>,
    x: &[f64; 8],
) -> Result<ActivityCoefficients, E>
    ensures { outcome_by E.said result ≡ activity_by_reason E.said table.now s x.now }
{
    let mut ln_gamma = [0.0; 8];
    let mut slopes = [0.0; 8];
    excess(table, s, x, &mut ln_gamma, &mut slopes)?;
    Ok(ActivityCoefficients { ln_gamma, slopes })
}

impl<E: Reason> Tabled<E> {
    // What a solver that begins at x goes on with, whose own refusals are of the 39: the same with α that passed, or that the model
    // has none of; else what `excess` refuses x with, be it a reason of the caller's.
    #[tactic(auto, unfolding(crate::specs::Activity::settled_by, crate::specs::Activity::settled_of))]
    pub fn settled(self, x: &[f64; 8]) -> Result<Tabled, E>
        ensures { outcome_by E.said result ≡ settled_of E.said self x.now }
    {
        let Tabled {
            model,
            alphas,
            n,
            t,
        } = self;
        if let (Model::Nrtl, Err(reason)) = (model, alphas) {
            excess::with_state(t, x, n)?;
            return Err(reason);
        }
        Ok(Tabled {
            model,
            alphas: Ok(()),
            n,
            t,
        })
    }
}

// ---- validity

// Extrapolated: T outside an interval of a pair present. Unassessed: a pair without interval, or no pair present.
#[derive(Clone, Copy, Default)]
pub enum ValidityStatus {
    #[default]
    Unassessed,
    WithinDeclaredDomain,
    Extrapolated,
}

#[derive(Clone, Copy)]
pub struct Assessment {
    pub status: ValidityStatus,
    pub inferred: bool,
}

// What the pairs passed so far have shown.
#[derive(Clone, Copy, Default)]
struct Seen {
    active: bool,
    missing: bool,
    extrapolated: bool,
    inferred: bool,
}

#[tactic(auto, unfolding(crate::specs::Validity::noted))]
fn note(interval: Option<Interval>, t: f64, s: Seen) -> Seen
    ensures { result ≡ noted interval t s }
{
    match interval {
        None => Seen {
            active: true,
            missing: true,
            ..s
        },
        Some(r) => Seen {
            active: true,
            extrapolated: s.extrapolated | !liquid::in_range(r.low, r.high, t),
            inferred: s.inferred | r.inferred,
            ..s
        },
    }
}

// The pairs of a book, at a temperature and a composition; one offered stands in the place of the book's own.
// Kept: records has book, offered, place and m in a private struct of its own, which reads blocks; shared it would be public.
#[derive(Clone, Copy)]
struct Present<'a> {
    book: &'a [u8],
    offered: &'a [u8],
    place: Option<usize>,
    m: Count,
    t: f64,
    x: &'a [f64; 8],
    ghost placed: { place ≡ offered_place m.n book.now offered.now },
}

impl Present<'_> {
    #[tactic(auto, unfolding(crate::specs::Validity::visited))]
    fn visit(self, i: usize, j: usize, s: Seen) -> Seen
        requires { (i < j) × (j < self.m.n) }
        ensures { let p = self.entry in result ≡ visited (with_pair p.m.n p.book.now p.offered.now) p.m.n p.t p.x.now i j s }
    {
        if !(self.x[i] <= 0.0) & !(self.x[j] <= 0.0) {
            let pair = records::pair_record(self.book, self.offered, self.place, self.m.n, i, j);
            note(pair.regression, self.t, s)
        } else {
            s
        }
    }

    // Kept: a `for` that hands on what was seen, here and in `see_all`: a fold's closure would be this body.
    fn see_row(self, i: usize, mut s: Seen) -> Seen
        requires { i < self.m.n }
        ensures { let p = self.entry in result ≡ row_seen (with_pair p.m.n p.book.now p.offered.now) p.m.n p.t p.x.now i p.m.n s }
    {
        for j in i + 1..self.m.n {
            s = self.visit(i, j, s);
        }
        s
    }

    #[tactic(auto, unfolding(floats::specs::Fold::fold_to, crate::specs::Validity::all_seen))]
    fn see_all(self) -> Seen
        ensures { let p = self.entry in result ≡ all_seen (with_pair p.m.n p.book.now p.offered.now) p.m.n p.t p.x.now }
    {
        let mut s = Seen::default();
        for i in 0..self.m.n {
            s = self.see_row(i, s);
        }
        s
    }
}

#[tactic(auto, unfolding(crate::specs::Validity::status_of))]
fn status_of(s: Seen) -> ValidityStatus
    ensures { result ≡ status_of s }
{
    if s.extrapolated {
        ValidityStatus::Extrapolated
    } else if s.missing | !s.active {
        ValidityStatus::Unassessed
    } else {
        ValidityStatus::WithinDeclaredDomain
    }
}

// Over pairs with both fractions positive; a pair offered stands in the place of the book's own.
#[tactic(auto, unfolding(crate::specs::Validity::validity_of))]
pub fn validity(book: &[u8], offered: &[u8], n: usize, t: Temperature, x: &[f64; 8]) -> Assessment
    ensures { result ≡ validity_of (with_pair (places n) book.now offered.now) (places n) t.0 x.now }
{
    let pairs = Present {
        book,
        offered,
        place: records::offered_place(book, offered, n),
        m: Count::of(n),
        t: t.value(),
        x,
    };
    let s = pairs.see_all();
    Assessment {
        status: status_of(s),
        inferred: s.inferred,
    }
}
