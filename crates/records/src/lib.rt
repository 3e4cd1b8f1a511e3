// The records that the models read from a book. Every reader is total: past the book's end a word is 0.
#![tactic(auto)]

ghost use Rattle.std.specs.Prelude.{◌≡◌, ◌≤◌, ◌<◌, ◌+◌, ◌*◌, set, List, [], get_or, length, leb, false, MatchOption};
ghost use Rattle.blocks.specs.Words.{word, block};
ghost use Rattle.floats.specs.Arithmetic.{0f};
ghost use Rattle.floats.specs.Vector.{vec, places, fill_from};
ghost use Rattle.book.specs.Places.{words, block_count, row_from, pair_place};
ghost use Rattle.floats.specs.Small.{float};
ghost use Rattle.book.specs.declared.Model.TheVariants.{Nrtl, Wilson};
ghost use Rattle.book.specs.Book.{model_of};
ghost use Rattle.records.specs.Records.{ancillary_of, range_of, regression_of, pair_of};
ghost use Rattle.records.specs.Offered.{offered_place, pair_at, with_pair};
ghost use Rattle.records.specs.Parameters.{terms_of, term_in, wilson_term, pair_term, lower_from, offered_parameter, parameter_both, parameter_border, parameter_rows, parameters_of};
ghost use Rattle.records.specs.Sources.{six_in, six_by, Reads};

use blocks::word;
use book::{Model, float_at};
use floats::Count;
use jet::Source;

// A correlation of document 003: t_r, low and high in K, the reducing value in Pa; the first `count` of n and t are
// its terms.
// Kept: a count beside arrays of eight: all eight words are read, and the definition has them all.
#[derive(Clone, Copy)]
pub struct Ancillary {
    pub t_r: f64,
    pub reducing_value: f64,
    pub low: f64,
    pub high: f64,
    pub count: usize,
    pub n: [f64; 8],
    pub t: [f64; 8],
}

// The temperatures that a correlation holds between, in K, the lower first.
// Kept: two ends, read in one line of thermo_models: with names that line is no shorter, and its laws change.
#[derive(Clone, Copy)]
pub struct Range(pub f64, pub f64);

// The parameters of an ordered pair. NRTL: tau = t0 + t1 / T + t2 ln T + t3 T, alpha = a0 + a1 T. Wilson: t0 and t1 are
// the a and b of Λ = exp(a + b / T), the others +0.
#[derive(Clone, Copy, Default)]
pub struct Terms {
    pub t0: f64,
    pub t1: f64,
    pub t2: f64,
    pub t3: f64,
    pub a0: f64,
    pub a1: f64,
}

// The temperatures that a pair was regressed between, in K, and whether they were inferred.
#[derive(Clone, Copy)]
pub struct Interval {
    pub low: f64,
    pub high: f64,
    pub inferred: bool,
}

// A pair i < j: the terms of (i, j) and of (j, i), and its regression interval, if it has one.
#[derive(Clone, Copy)]
pub struct Pair {
    pub ij: Terms,
    pub ji: Terms,
    pub regression: Option<Interval>,
}

// Kept: question's floats_from has a caller's count, and asks of each of eight whether it is past it; as one function it would
// be book's, with a contract and edits, for one line each.
fn eight_floats(s: &[u8], from: usize) -> [f64; 8]
    requires { from ≤ 56 }
    ensures { result ≡ vec (λ k. float (word s.now) (from + k)) 8 }
{
    std::array::from_fn(|k| float_at(s, from + k))
}

// Solvent i's block, which is block i + 1.
fn solvent_block(book: &[u8], i: usize) -> &[u8]
    ensures { result.now ≡ block book.now (i + 1) }
{
    blocks::block(book, i.saturating_add(1))
}

// The correlation from word f on.
// Kept: a word's place, with room for the record behind it; as an enum of two records it would be turned into 3 or 24 here.
#[tactic(auto, unfolding(crate::specs::Records::ancillary_of))]
fn ancillary_at(s: &[u8], f: usize) -> Ancillary
    requires { f ≤ 24 }
    ensures { result ≡ ancillary_of (word s.now) f }
{
    Ancillary {
        count: floats::places(word(s, f + 4) as usize),
        n: eight_floats(s, f + 5),
        t: eight_floats(s, f + 13),
        t_r: float_at(s, f),
        reducing_value: float_at(s, f + 1),
        low: float_at(s, f + 2),
        high: float_at(s, f + 3),
    }
}

#[tactic(auto, unfolding(crate::specs::Records::range_of))]
fn range_at(s: &[u8], f: usize) -> Range
    requires { f ≤ 24 }
    ensures { result ≡ range_of (word s.now) f }
{
    Range(float_at(s, f + 2), float_at(s, f + 3))
}

// Solvent i's vapor pressure correlation, words 3 to 23.
pub fn vapor_pressure_record(book: &[u8], i: usize) -> Ancillary
    ensures { result ≡ ancillary_of (words book.now (i + 1)) 3 }
{
    ancillary_at(solvent_block(book, i), 3)
}

// Its range, words 5 and 6.
pub fn vapor_pressure_range(book: &[u8], i: usize) -> Range
    ensures { result ≡ range_of (words book.now (i + 1)) 3 }
{
    range_at(solvent_block(book, i), 3)
}

// The range of solvent i's liquid density correlation, words 26 and 27.
pub fn density_range(book: &[u8], i: usize) -> Range
    ensures { result ≡ range_of (words book.now (i + 1)) 24 }
{
    range_at(solvent_block(book, i), 24)
}

// Row i's first block: 1 + n, and the n - 1, n - 2, .. pairs of the rows before it. The rows past the last are empty.
fn row_from(m: Count, i: usize) -> usize
    ensures { (result ≡ row_from m.n i) × (result ≤ 37) }
{
    let n = m.n;
    let i = i.min(n);
    1 + n + (i * (2 * n - i) - i) / 2
}

#[tactic(auto, unfolding(book::specs::Places::pair_place))]
fn pair_place(m: Count, i: usize, j: usize) -> usize
    requires { j ≤ 8 }
    ensures { result ≡ pair_place m.n i j }
{
    row_from(m, i) + j.saturating_sub(i).saturating_sub(1)
}

// ---- a pair offered in the place of the book's own

// The block in whose place it stands, where it is for a pair of the book's first n solvents.
// Kept: an empty slice for nothing offered: the definitions say `with_pair n book []`, and an Option would be taken apart at each
// call.
pub fn offered_place(book: &[u8], offered: &[u8], n: usize) -> Option<usize>
    ensures { result ≡ offered_place (places n) book.now offered.now }
{
    if offered.len() != 512 {
        return None;
    }
    let m = Count::of(n);
    let i = word(offered, 1);
    let j = word(offered, 2);
    if j <= i || m.n as u64 <= j {
        return None;
    }
    let place = pair_place(m, i as usize, j as usize);
    if place < book.len() / 512 {
        Some(place)
    } else {
        None
    }
}

#[tactic(auto, unfolding(crate::specs::Records::regression_of))]
fn regression_at(s: &[u8]) -> Option<Interval>
    ensures { result ≡ regression_of (word s.now) }
{
    if word(s, 15) == 0 {
        return None;
    }
    Some(Interval {
        low: float_at(s, 16),
        high: float_at(s, 17),
        inferred: word(s, 18) != 0,
    })
}

// Tau of the pair (i, j) from word 3 on, alpha from word 11 on. The last word first: past the test for it the others need none,
// those of the caller neither.
#[inline(always)]
#[tactic(auto, unfolding(crate::specs::Parameters::terms_of, crate::specs::Parameters::term_in))]
fn nrtl_terms(s: &[u8]) -> Terms
    ensures { result ≡ terms_of (term_in (word s.now) 3) }
{
    Terms {
        a1: float_at(s, 12),
        a0: float_at(s, 11),
        t0: float_at(s, 3),
        t1: float_at(s, 4),
        t2: float_at(s, 5),
        t3: float_at(s, 6),
    }
}

// a and b from word f on.
#[tactic(auto, unfolding(crate::specs::Parameters::terms_of, crate::specs::Parameters::wilson_term))]
fn wilson_terms(s: &[u8], f: usize) -> Terms
    requires { f ≤ 7 }
    ensures { result ≡ terms_of (wilson_term (word s.now) f) }
{
    Terms {
        t1: float_at(s, f + 1),
        t0: float_at(s, f),
        ..Terms::default()
    }
}

// Of the pair (i, j), i < j, and of (j, i), in their block. NRTL has one alpha for both.
// Kept: a definition by cases; `Model` is `book`'s, and as its method this would want a trait for one call.
#[inline(always)]
#[tactic(auto, unfolding(crate::specs::Parameters::pair_term, crate::specs::Parameters::terms_of, crate::specs::Parameters::term_in, crate::specs::Parameters::lower_from))]
fn both_terms(model: Model, s: &[u8]) -> (Terms, Terms)
    ensures upper { result.0 ≡ terms_of (pair_term model (word s.now) 3) }
    ensures lower { result.1 ≡ terms_of (pair_term model (word s.now) (lower_from model)) }
{
    match model {
        Model::Nrtl => {
            let ij = nrtl_terms(s);
            let ji = Terms {
                t0: float_at(s, 7),
                t1: float_at(s, 8),
                t2: float_at(s, 9),
                t3: float_at(s, 10),
                ..ij
            };
            (ij, ji)
        }
        Model::Wilson => (wilson_terms(s, 3), wilson_terms(s, 5)),
    }
}

#[tactic(auto, unfolding(crate::specs::Records::pair_of))]
fn pair_in(model: Model, s: &[u8]) -> Pair
    ensures { result ≡ pair_of model (word s.now) }
{
    let (ij, ji) = both_terms(model, s);
    Pair {
        ij,
        ji,
        regression: regression_at(s),
    }
}

fn set_terms(plane: &mut [f64; 384], from: usize, t: Terms)
    requires { from + 6 ≤ 384 }
    ensures { plane.new ≡ set (set (set (set (set (set plane.old from t.t0) (from + 1) t.t1) (from + 2) t.t2) (from + 3) t.t3) (from + 4) t.a0) (from + 5) t.a1 }
{
    // Kept: `copy_from_slice` tests at each call whether the two overlap, which takes longer than the copy: the parameters of 2, 4
    // and 8 solvents take 59, 168 and 637 ns by it, by NRTL, and 45, 87 and 256 so.
    plane[from] = t.t0;
    plane[from + 1] = t.t1;
    plane[from + 2] = t.t2;
    plane[from + 3] = t.t3;
    plane[from + 4] = t.a0;
    plane[from + 5] = t.a1;
}

// Kept: `i < 8` is a loop's own index, here and below; a type for it would be made at each turn.
fn diagonal(i: usize, plane: &mut [f64; 384])
    requires { i < 8 }
    ensures { plane.new ≡ fill_from (λ _. 0f) ((i * 8 + i) * 6) 6 plane.old }
{
    set_terms(plane, (i * 8 + i) * 6, Terms::default());
}

// The pair blocks of a book, where a block is offered for the pair at `place`.
// Kept: `thermo_models::Present` has four of these fields, with T and x, and reads pairs by `pair_record`; shared the struct
// would be public, and its methods too. It is made twice, here and in `parameters`: a constructor's contract is six equations.
#[derive(Clone, Copy)]
struct PairBlocks<'a> {
    model: Model,
    book: &'a [u8],
    offered: &'a [u8],
    place: Option<usize>,
    m: Count,
}

impl<'a> PairBlocks<'a> {
    // That of the pair (i, j), i < j.
    fn block(self, i: usize, j: usize) -> &'a [u8]
        requires { j ≤ 8 }
        ensures { result.now ≡ pair_at self.entry.book.now self.entry.offered.now self.entry.place (pair_place self.entry.m.n i j) }
    {
        let k = pair_place(self.m, i, j);
        if Some(k) == self.place {
            self.offered
        } else {
            blocks::block(self.book, k)
        }
    }

    // The ordered pairs (i, j) and (j, i), j < i: the offered block's, or the book's.
    fn fill_both(self, i: usize, j: usize, plane: &mut [f64; 384])
        requires { (i < 8) × (j < i) }
        ensures { plane.new ≡ parameter_both (offered_parameter self.entry.model self.entry.book.now self.entry.offered.now self.entry.place self.entry.m.n) i j plane.old }
    {
        let (upper, lower) = both_terms(self.model, self.block(j, i));
        set_terms(plane, (i * 8 + j) * 6, lower);
        set_terms(plane, (j * 8 + i) * 6, upper);
    }

    // Row i up to the diagonal, and column i.
    // Kept: jet fills its tables by the same two loops; one public function for both would take closures that write, and require
    // F.pre, or a trait with a law for each of the two.
    #[tactic(auto, unfolding(floats::specs::Fold::fold_to))]
    fn fill_border(self, i: usize, plane: &mut [f64; 384])
        requires { i < 8 }
        ensures { plane.new ≡ parameter_border (offered_parameter self.entry.model self.entry.book.now self.entry.offered.now self.entry.place self.entry.m.n) i i plane.old }
    {
        for j in 0..i {
            self.fill_both(i, j, plane);
        }
    }

    fn fill(self, plane: &mut [f64; 384])
        ensures { plane.new ≡ parameter_rows (offered_parameter self.entry.model self.entry.book.now self.entry.offered.now self.entry.place self.entry.m.n) self.entry.m.n self.entry.m.n }
    {
        *plane = [0.0; 384];
        for i in 0..self.m.n {
            self.fill_border(i, plane);
            diagonal(i, plane);
        }
    }
}

// The pair (i, j), i < j, of a book of n solvents, where a block is offered for the pair at `place`.
pub fn pair_record(
    book: &[u8],
    offered: &[u8],
    place: Option<usize>,
    n: usize,
    i: usize,
    j: usize,
) -> Pair
    ensures { result ≡ pair_of (model_of book.now) (word (pair_at book.now offered.now place (pair_place (places n) (places i) (places j)))) }
{
    let model = book::model_of(book);
    let m = Count::of(n);
    let pairs = PairBlocks {
        model,
        book,
        offered,
        place,
        m,
    };
    pair_in(model, pairs.block(floats::places(i), floats::places(j)))
}

// The parameters of all ordered pairs, from (i * 8 + j) * 6 on: NRTL, tau's t0 to t3, alpha's a0 and a1; Wilson, a and b,
// then +0. All +0 for i = j and past n. A pair offered stands in the place of the book's own; with nothing offered they are
// the book's.
pub fn parameters(book: &[u8], offered: &[u8], n: usize, plane: &mut [f64; 384])
    ensures { plane.new ≡ parameters_of (with_pair (places n) book.now offered.now) (places n) }
{
    let model = book::model_of(book);
    let place = offered_place(book, offered, n);
    let m = Count::of(n);
    let pairs = PairBlocks {
        model,
        book,
        offered,
        place,
        m,
    };
    pairs.fill(plane);
}

// ---- a book's own pairs, read where they stand

// The blocks of a book that has whole ones for all pairs of its first solvents.
#[derive(Clone, Copy)]
pub struct WholePairs<'a> {
    blocks: &'a [[u8; 512]],
    m: Count,
    ghost enough: { block_count m.n ≤ length blocks.now },
}

impl<'a> WholePairs<'a> {
    // Of a book of n solvents.
    pub fn of(book: &'a [u8], n: usize) -> Option<WholePairs<'a>>
        ensures { MatchOption result (leb (512 * block_count (places n)) (length book.now) ≡ false) (λ s. Reads s.blocks.now s.m.n book.now (places n)) }
    {
        let (blocks, _) = book.as_chunks::<512>();
        let m = Count::of(n);
        if blocks.len() < 1 + m.n + m.n * m.n.saturating_sub(1) / 2 {
            return None;
        }
        Some(WholePairs { blocks, m })
    }

    // That of the pair (i, j), where there is one, else block 0.
    fn block(self, i: usize, j: usize) -> &'a [u8; 512]
        ensures { i < j → j < self.entry.m.n → result.now ≡ get_or self.entry.blocks.now (pair_place self.entry.m.n i j) [] }
    {
        let n = self.m.n;
        if j <= i || n <= j {
            return &self.blocks[0];
        }
        &self.blocks[1 + n + (i * (2 * n - i) - i) / 2 + (j - i - 1)]
    }
}

#[tactic(auto, unfolding(crate::specs::Sources::six_in))]
fn six(t: Terms) -> [f64; 6]
    ensures { result ≡ six_in t }
{
    [t.t0, t.t1, t.t2, t.t3, t.a0, t.a1]
}

// By NRTL, whatever the book says, and by Wilson: two types, so that no pair asks which.
#[derive(Clone, Copy)]
pub struct NrtlPairs<'a>(pub WholePairs<'a>);

#[derive(Clone, Copy)]
pub struct WilsonPairs<'a>(pub WholePairs<'a>);

impl Source for NrtlPairs<'_> {
    ghost size = { λ s. s.0.m.n };

    ghost six = { λ s. six_by Nrtl s.0.blocks.now s.0.m.n };

    fn count(&self) -> Count {
        self.0.m
    }

    fn both(&self, i: usize, j: usize) -> ([f64; 6], [f64; 6]) {
        let (upper, lower) = both_terms(Model::Nrtl, self.0.block(i, j));
        (six(upper), six(lower))
    }
}

impl Source for WilsonPairs<'_> {
    ghost size = { λ s. s.0.m.n };

    ghost six = { λ s. six_by Wilson s.0.blocks.now s.0.m.n };

    fn count(&self) -> Count {
        self.0.m
    }

    fn both(&self, i: usize, j: usize) -> ([f64; 6], [f64; 6]) {
        let (upper, lower) = both_terms(Model::Wilson, self.0.block(i, j));
        (six(upper), six(lower))
    }
}
