// The book: questions 1 to 9, 35, 37 and 38.
#![tactic(auto)]

ghost use Rattle.std.specs.Prelude.{◌≡◌, ℕ, ◌+◌, ◌-◌, ◌*◌, ◌<◌, ◌≤◌, Bool, not, true, false, ◌&&◌, ◌||◌, ◌==◌, if◌then◌else◌, length, take, get_or, [], nat_lt, MatchOption, IfSome, ◌^◌};
ghost use Rattle.std.specs.List.{list_all};
ghost use Rattle.blocks.specs.Words.{word, check_right};
ghost use Rattle.floats.specs.Small.{is_finite, positive, float_of, float};
ghost use Rattle.floats.specs.Fold.{all_to};
ghost use Rattle.book.specs.Places.{pair_count, block_count, row_from, pair_place, words_in, Whole};
ghost use Rattle.book.specs.Book.{floats_finite, version_right, head_right, model_right, model_of, solvent_right, range_right, record_right, records_right, has_masses, pair_right, row_right, parameters_finite, bounds_finite, pair_finite, alphas_equal, pairs_of, solvents_of, head_in, head_of, whole_blocks, rule_in, rule_of, book_of, offered_right, offered_of};
ghost use Rattle.book.specs.Place.{lowest, first_pair, block_behind, solvents_at, pair_at, place_in, shaped_by, place_of, put_to_offered, place_past, preview_place};
ghost use Rattle.outcome.specs.Refused.{number, outcome_of};

use blocks::Rule;
use floats::Count;
use outcome::Refusal;

// What the activity coefficients are worked out by.
#[derive(Clone, Copy)]
pub enum Model {
    Nrtl,
    Wilson,
}

// What block 0 says: the number of solvents, the version, and the model.
#[derive(Clone, Copy)]
pub struct Head {
    pub n: usize,
    pub version: u64,
    pub model: Model,
}

// Where the bytes of a call were answered no: a block of the book, two of its solvents, the offered block, or no such place.
#[derive(Clone, Copy)]
pub enum Place {
    Nowhere,
    Block(u64),
    Pair(u64, u64),
    Offered,
}

// A book's blocks, where its bytes are whole ones and at least one: question 1.
fn whole_blocks(book: &[u8]) -> Option<&[[u8; 512]]>
    ensures { MatchOption result (whole_blocks book.now ≡ false) (λ blocks. Whole book.now blocks.now) }
{
    let (blocks, rest) = book.as_chunks::<512>();
    if blocks.is_empty() || !rest.is_empty() {
        return None;
    }
    Some(blocks)
}

// A word of a whole block, read with no test for its end.
// Kept: shared with `blocks` it would be a `pub fn` with a `requires`, and `float_in` is one line. `k < 64` is the place of a word, here and below.
#[tactic(auto, unfolding(blocks::specs::Words::word))]
fn word(s: &[u8; 512], k: usize) -> u64
    requires { k < 64 }
    ensures { result ≡ word s.now k }
{
    let from = 8 * k;
    u64::from_le_bytes(s[from..from + 8].try_into().unwrap())
}

// Word k of a slice as a float.
pub fn float_at(s: &[u8], k: usize) -> f64
    ensures { result ≡ float (word s.now) k }
{
    floats::float_of(blocks::word(s, k))
}

fn float_in(s: &[u8; 512], k: usize) -> f64
    requires { k < 64 }
    ensures { result ≡ float (word s.now) k }
{
    floats::float_of(word(s, k))
}

// One more in a float's exponent: where that is all ones, and only there, the carry turns bit 63.
fn carry(bits: u64) -> u64
    ensures { nat_lt result 0x8000000000000000 ≡ is_finite (float_of bits) }
{
    bits ^ bits.wrapping_add(0x0010000000000000)
}

// Kept: a `for`: no early way out, and no test in the loop, which over a known count is unrolled, two words to a step.
#[tactic(auto, unfolding(crate::specs::Book::floats_finite, floats::specs::Fold::all_to))]
fn floats_finite(s: &[u8; 512], from: usize, count: usize) -> bool
    requires { from + count ≤ 64 }
    ensures { result ≡ floats_finite (word s.now) from count }
{
    let mut carries: u64 = 0;
    for k in 0..count {
        carries |= carry(word(s, from + k));
    }
    carries < 0x8000000000000000
}

fn checks_right(rule: Rule, blocks: &[[u8; 512]]) -> bool
    ensures { result ≡ list_all (λ s. check_right rule (word s)) blocks.now }
{
    blocks.iter().all(|s| blocks::check_right(rule, s))
}

// Kind 1 has version 1 to 3.
// Kept: kinds of blocks and models by the format's numbers, here and below: each is read in one test of its own.
#[tactic(auto, unfolding(crate::specs::Book::version_right))]
fn version_right(s: &[u8; 512]) -> bool
    ensures { result ≡ version_right (word s.now) }
{
    let version = word(s, 1);
    word(s, 0) != 1 || (1..=3).contains(&version)
}

#[tactic(auto, unfolding(crate::specs::Book::head_right))]
fn head_right(s: &[u8; 512]) -> bool
    ensures { result ≡ head_right (word s.now) }
{
    word(s, 0) == 1 && (1..=8).contains(&word(s, 2))
}

// 0, NRTL; or 1, Wilson, from version 2 on.
#[tactic(auto, unfolding(crate::specs::Book::model_right))]
fn model_right(s: &[u8; 512]) -> bool
    ensures { result ≡ model_right (word s.now) }
{
    let model = word(s, 3);
    model == 0 || (model == 1 && 2 <= word(s, 1))
}

// By its number: 1, Wilson; NRTL by every other.
fn model_in(w: u64) -> Model
    ensures { result ≡ (if w == 1 then Model.Wilson else Model.Nrtl) }
{
    match w {
        1 => Model::Wilson,
        _ => Model::Nrtl,
    }
}

// By word 3 of block 0, whatever else stands there.
#[tactic(auto, unfolding(crate::specs::Book::model_in))]
pub fn model_of(book: &[u8]) -> Model
    ensures { result ≡ model_of book.now }
{
    model_in(blocks::word(blocks::block(book, 0), 3))
}

fn pair_count(m: Count) -> usize
    ensures { (result ≡ pair_count m.n) × (result ≤ 28) }
{
    m.n * m.n.saturating_sub(1) / 2
}

// Kind 2, its own index, a CAS number, term counts 1 to 8. Inlined, as is `pair_right`: of two callers one is the scan of every
// book, which a call for each block would slow down.
#[inline(always)]
#[tactic(auto, unfolding(crate::specs::Book::solvent_right))]
fn solvent_right(s: &[u8; 512], i: u64) -> bool
    ensures { result ≡ solvent_right (word s.now) i }
{
    let terms = word(s, 7);
    let more = word(s, 28);
    (word(s, 0) == 2)
        & (word(s, 1) == i)
        & (word(s, 2) != 0)
        & (0 < terms)
        & (terms <= 8)
        & (0 < more)
        & (more <= 8)
}

fn solvents_right(solvents: &[[u8; 512]]) -> bool
    ensures { result ≡ all_to (λ i. solvent_right (words_in solvents.now i) i) (length solvents.now) }
{
    solvents
        .iter()
        .enumerate()
        .all(|(i, s)| solvent_right(s, i as u64))
}

// 0 < low ≤ high < t_r (K), the reducing value positive.
// Kept: `f` is a word's place, with room for the record behind it (`record_right` too); as an enum of two records it would be turned into 3 or 24 here.
#[tactic(auto, unfolding(crate::specs::Book::range_right))]
fn range_right(s: &[u8; 512], f: usize) -> bool
    requires { f ≤ 24 }
    ensures { result ≡ range_right (word s.now) f }
{
    let t_r = float_in(s, f);
    let reducing_value = float_in(s, f + 1);
    let low = float_in(s, f + 2);
    let high = float_in(s, f + 3);
    (0.0 < low) & (low <= high) & (high < t_r) & (0.0 < reducing_value)
}

// The record from word f on.
#[tactic(auto, unfolding(crate::specs::Book::record_right))]
fn record_right(s: &[u8; 512], f: usize) -> bool
    requires { f ≤ 24 }
    ensures { result ≡ record_right (word s.now) f }
{
    let count = floats::places(word(s, f + 4) as usize);
    floats_finite(s, f, 4)
        & floats_finite(s, f + 5, count)
        & floats_finite(s, f + 13, count)
        & range_right(s, f)
}

// Vapor pressure and liquid density. As a rule the unused places are finite too, so one scan does for both records.
#[tactic(auto, unfolding(crate::specs::Book::records_right))]
fn records_right(s: &[u8; 512]) -> bool
    ensures { result ≡ records_right (word s.now) }
{
    if floats_finite(s, 3, 42) {
        return range_right(s, 3) & range_right(s, 24);
    }
    record_right(s, 3) & record_right(s, 24)
}

fn all_records_right(solvents: &[[u8; 512]]) -> bool
    ensures { result ≡ list_all (λ s. records_right (word s)) solvents.now }
{
    solvents.iter().all(|s| records_right(s))
}

// From version 2 on.
pub fn has_masses(version: u64) -> bool
    ensures { result ≡ has_masses version }
{
    2 <= version
}

// Word 45, in kg/mol.
fn masses_positive(solvents: &[[u8; 512]]) -> bool
    ensures { result ≡ list_all (λ s. positive (float (word s) 45)) solvents.now }
{
    solvents.iter().all(|s| floats::positive(float_in(s, 45)))
}

// Word 45 of version 1 is not read.
fn masses_right(version: u64, solvents: &[[u8; 512]]) -> bool
    ensures { result ≡ (not (has_masses version) || list_all (λ s. positive (float (word s) 45)) solvents.now) }
{
    !has_masses(version) || masses_positive(solvents)
}

fn cas_new(own: u64, before: &[[u8; 512]]) -> bool
    ensures { result ≡ list_all (λ s. not (word s 2 == own)) before.now }
{
    before.iter().all(|s| word(s, 2) != own)
}

fn cas_distinct(solvents: &[[u8; 512]]) -> bool
    ensures { result ≡ all_to (λ i. list_all (λ s. not (word s 2 == words_in solvents.now i 2)) (take i solvents.now)) (length solvents.now) }
{
    solvents
        .iter()
        .enumerate()
        .all(|(i, s)| cas_new(word(s, 2), &solvents[..i]))
}

// Kind 3, due i and j, flags 0 or 1.
#[inline(always)]
#[tactic(auto, unfolding(crate::specs::Book::pair_right))]
fn pair_right(s: &[u8; 512], i: u64, j: u64) -> bool
    ensures { result ≡ pair_right (word s.now) i j }
{
    (word(s, 0) == 3)
        & (word(s, 1) == i)
        & (word(s, 2) == j)
        & (word(s, 15) <= 1)
        & (word(s, 18) <= 1)
}

fn row_right(i: usize, row: &[[u8; 512]]) -> bool
    requires { i + length row.now ≤ 8 }
    ensures { result ≡ all_to (λ d. pair_right (words_in row.now d) i (i + 1 + d)) (length row.now) }
{
    row.iter()
        .enumerate()
        .all(|(d, s)| pair_right(s, i as u64, (i + 1 + d) as u64))
}

// The bounds of an interval are read only if it is flagged.
#[tactic(auto, unfolding(crate::specs::Book::bounds_finite))]
fn bounds_finite(s: &[u8; 512]) -> bool
    ensures { result ≡ bounds_finite (word s.now) }
{
    word(s, 15) == 0 || floats_finite(s, 16, 2)
}

// Kept: each `match self` is a definition by cases, with a constant in each: a count that is known lets the loop unroll.
impl Model {
    // Four taus and two alphas each way, or a and b.
    #[tactic(auto, unfolding(crate::specs::Book::parameters_finite))]
    fn parameters_finite(self, s: &[u8; 512]) -> bool
        ensures { result ≡ parameters_finite self (word s.now) }
    {
        match self {
            Model::Nrtl => floats_finite(s, 3, 12),
            Model::Wilson => floats_finite(s, 3, 4),
        }
    }

    #[tactic(auto, unfolding(crate::specs::Book::pair_finite))]
    fn pair_finite(self, s: &[u8; 512]) -> bool
        ensures { result ≡ pair_finite self (word s.now) }
    {
        self.parameters_finite(s) & bounds_finite(s)
    }

    // Wilson has no alphas.
    fn pair_sound(self, s: &[u8; 512]) -> bool
        ensures { result ≡ (pair_finite self (word s.now) && alphas_equal self (word s.now)) }
    {
        match self {
            Model::Nrtl => nrtl_sound(s),
            Model::Wilson => self.pair_finite(s),
        }
    }

    #[tactic(auto, unfolding(crate::specs::Book::alphas_equal))]
    fn alphas_equal(self, s: &[u8; 512]) -> bool
        ensures { result ≡ alphas_equal self (word s.now) }
    {
        match self {
            Model::Nrtl => alphas_equal(s),
            Model::Wilson => true,
        }
    }

    fn pairs_finite(self, pairs: &[[u8; 512]]) -> bool
        ensures { result ≡ list_all (λ s. pair_finite self (word s)) pairs.now }
    {
        pairs.iter().all(|s| self.pair_finite(s))
    }

    fn pairs_sound(self, pairs: &[[u8; 512]]) -> bool
        ensures { result ≡ list_all (λ s. pair_finite self (word s) && alphas_equal self (word s)) pairs.now }
    {
        pairs.iter().all(|s| self.pair_sound(s))
    }
}

#[tactic(auto, unfolding(crate::specs::Book::alphas_equal))]
fn alphas_equal(s: &[u8; 512]) -> bool
    ensures { result ≡ alphas_equal Model.Nrtl (word s.now) }
{
    (float_in(s, 11) == float_in(s, 13)) & (float_in(s, 12) == float_in(s, 14))
}

// Questions 8 and 9 in one reading. As a rule the alphas are the same words, and unflagged bounds are finite too.
fn nrtl_sound(s: &[u8; 512]) -> bool
    ensures { result ≡ (pair_finite Model.Nrtl (word s.now) && alphas_equal Model.Nrtl (word s.now)) }
{
    let same = (word(s, 11) == word(s, 13)) & (word(s, 12) == word(s, 14));
    if same & floats_finite(s, 3, 15) {
        return true;
    }
    Model::Nrtl.pair_finite(s) & alphas_equal(s)
}

// A book that has a block for each solvent and each pair.
#[derive(Clone, Copy)]
struct Book<'a> {
    blocks: &'a [[u8; 512]],
    head: Head,
    ghost few: { head.n ≤ 8 },
    ghost size: { length blocks.now ≡ block_count head.n },
}

impl<'a> Book<'a> {
    #[tactic(auto, unfolding(floats::specs::Fold::all_to, crate::specs::Places::row_from))]
    fn pairs_right(self) -> bool
        ensures { result ≡ all_to (λ i. row_right (words_in self.entry.blocks.now) i (row_from self.entry.head.n i) (self.entry.head.n - i - 1)) self.entry.head.n }
    {
        let n = self.head.n;
        let mut pairs = &self.blocks[1 + n..];
        for i in 0..n {
            let (row, behind) = pairs.split_at(n - i - 1);
            if !row_right(i, row) {
                return false;
            }
            pairs = behind;
        }
        true
    }

    #[tactic(auto, unfolding(crate::specs::Book::pairs_of, floats::specs::Outcome::need))]
    fn open_pairs(self) -> Result<Head, Refusal>
        ensures { outcome_of result ≡ pairs_of (words_in self.entry.blocks.now) self.entry.head }
    {
        let Head { n, model, .. } = self.head;
        if !self.pairs_right() {
            return Err(Refusal::PairBlock);
        }
        let pairs = &self.blocks[1 + n..];
        if model.pairs_sound(pairs) {
            return Ok(self.head);
        }
        if !model.pairs_finite(pairs) {
            return Err(Refusal::PairNumber);
        }
        Err(Refusal::PairAlphas)
    }

    #[tactic(auto, using(crate::proofs::Blocks::solvents_asked), unfolding(floats::specs::Outcome::need))]
    fn open_solvents(self) -> Result<Head, Refusal>
        ensures { outcome_of result ≡ solvents_of (words_in self.entry.blocks.now) self.entry.head }
    {
        let Head { n, version, .. } = self.head;
        let solvents = &self.blocks[1..1 + n];
        if !solvents_right(solvents) {
            return Err(Refusal::SolventBlock);
        }
        if !all_records_right(solvents) {
            return Err(Refusal::SolventNumber);
        }
        if !masses_right(version, solvents) {
            return Err(Refusal::MolarMass);
        }
        if !cas_distinct(solvents) {
            return Err(Refusal::SolventTwice);
        }
        self.open_pairs()
    }
}

// A book with a block for each solvent and each pair of 1 to 8: question 3.
#[tactic(auto, unfolding(crate::specs::Book::head_in, crate::specs::Book::model_in))]
fn shaped(blocks: &[[u8; 512]]) -> Option<Book<'_>>
    requires { 0 < length blocks.now }
    ensures { MatchOption result
        (shaped_by (words_in blocks.now 0) (length blocks.now) ≡ false)
        (λ book. (shaped_by (words_in blocks.now 0) (length blocks.now) ≡ true) × (book.blocks.now ≡ blocks.now) × (book.head ≡ head_in (words_in blocks.now 0))) }
{
    let first = &blocks[0];
    if !head_right(first) {
        return None;
    }
    let m = Count::of(word(first, 2) as usize);
    if blocks.len() != 1 + m.n + pair_count(m) {
        return None;
    }
    let head = Head {
        n: m.n,
        version: word(first, 1),
        model: model_in(word(first, 3)),
    };
    Some(Book { blocks, head })
}

#[tactic(auto, unfolding(crate::specs::Book::head_of, floats::specs::Outcome::need))]
fn open_head(blocks: &[[u8; 512]]) -> Result<Head, Refusal>
    requires { 0 < length blocks.now }
    ensures { outcome_of result ≡ head_of (words_in blocks.now) (length blocks.now) }
{
    let Some(book) = shaped(blocks) else {
        return Err(Refusal::BookHead);
    };
    if !model_right(&blocks[0]) {
        return Err(Refusal::BookModel);
    }
    book.open_solvents()
}

// Version 3 of kind 1 is checked by running sums.
#[tactic(auto, unfolding(crate::specs::Book::rule_in))]
fn rule_in(s: &[u8; 512]) -> Rule
    ensures { result ≡ rule_in (word s.now) }
{
    if word(s, 0) == 1 && word(s, 1) == 3 {
        Rule::Running
    } else {
        Rule::Plain
    }
}

// The rule by which the blocks of a call are checked: a book's own, its question's and its answer's.
#[tactic(auto, using(crate::proofs::Laws::no_rule, crate::proofs::Blocks::rule_whole))]
pub fn rule_of(book: &[u8]) -> Rule
    ensures { result ≡ rule_of book.now }
{
    match whole_blocks(book) {
        Some(blocks) => rule_in(&blocks[0]),
        None => Rule::Plain,
    }
}

// Questions 1 to 9, 35, 37 and 38: what block 0 says, or the number of the first question that is answered no.
pub fn open_book(book: &[u8]) -> Result<Head, Refusal>
    ensures { outcome_of result ≡ book_of book.now }
{
    let Some(blocks) = whole_blocks(book) else {
        return Err(Refusal::BookLength);
    };
    let first = &blocks[0];
    if !version_right(first) {
        return Err(Refusal::BookVersion);
    }
    if !checks_right(rule_in(first), blocks) {
        return Err(Refusal::BookCheck);
    }
    open_head(blocks)
}

// Any i < j below n.
fn names_pair(s: &[u8; 512], n: usize) -> bool
    ensures { result ≡ offered_right n (word s.now) }
{
    let i = word(s, 1);
    let j = word(s, 2);
    (i < j) & (j < n as u64) & pair_right(s, i, j)
}

// A pair's block offered for a book that passed: exactly one whole block (1), its check (2), any i < j below n (7), then 8 and 9.
#[tactic(auto, using(crate::proofs::Blocks::offered_asked), unfolding(crate::specs::Book::offered_of, floats::specs::Outcome::need))]
pub fn open_offered(rule: Rule, head: Head, offered: &[u8]) -> Result<Head, Refusal>
    ensures { outcome_of result ≡ offered_of rule head offered.now }
{
    let Ok(s) = <&[u8; 512]>::try_from(offered) else {
        return Err(Refusal::BookLength);
    };
    if !blocks::check_right(rule, s) {
        return Err(Refusal::BookCheck);
    }
    if !names_pair(s, head.n) {
        return Err(Refusal::PairBlock);
    }
    // Through the loops over a book's pairs, so that these keep their bodies to themselves.
    let pairs = std::slice::from_ref(s);
    if !head.model.pairs_finite(pairs) {
        return Err(Refusal::PairNumber);
    }
    if !head.model.pairs_sound(pairs) {
        return Err(Refusal::PairAlphas);
    }
    Ok(head)
}

// ---- where a book said no

// The lowest k below n that does not pass.
fn lowest<F: Fn(usize) -> bool>(n: usize, passes: F) -> Option<usize>
    requires { (k : ℕ) → k < n → F.pre passes k }
    ensures below { IfSome result (λ k. k < n) }
    ensures first { (q : ℕ → Bool) → ((k : ℕ) (b : Bool) → k < n → F.post passes k b → b ≡ q k) → result ≡ lowest q n }
{
    for k in 0..n {
        if !passes(k) {
            return Some(k);
        }
    }
    None
}

// The block behind so many others.
#[tactic(auto, unfolding(crate::specs::Place::block_behind))]
fn block_behind(before: usize, found: Option<usize>) -> Place
    requires { IfSome found (λ k. before + k < 2 ^ 64) }
    ensures { result ≡ block_behind before found }
{
    match found {
        Some(k) => Place::Block((before + k) as u64),
        None => Place::Nowhere,
    }
}

// The first two solvents with one CAS number, in the order of the pairs.
fn first_twice(solvents: &[[u8; 512]]) -> Option<(usize, usize)>
    requires { length solvents.now ≤ 8 }
    ensures { result ≡ first_pair (λ i j. not (words_in solvents.now i 2 == words_in solvents.now j 2)) (length solvents.now) }
{
    for (i, s) in solvents.iter().enumerate() {
        let own = word(s, 2);
        let behind = &solvents[i + 1..];
        if let Some(d) = lowest(behind.len(), |d| own != word(&behind[d], 2)) {
            return Some((i, i + 1 + d));
        }
    }
    None
}

impl<'a> Book<'a> {
    // The block of the first pair that is none of the book's.
    #[tactic(auto, unfolding(floats::specs::Fold::all_to, crate::specs::Places::row_from))]
    fn wrong_pair(self) -> Option<usize>
        ensures { block_behind 0 result ≡ pair_at self.entry.head.n (first_pair (λ i j. pair_right (words_in self.entry.blocks.now (pair_place self.entry.head.n i j)) i j) self.entry.head.n) }
    {
        let n = self.head.n;
        let mut pairs = &self.blocks[1 + n..];
        for i in 0..n {
            let (row, behind) = pairs.split_at(n - i - 1);
            let found = lowest(row.len(), move |d| {
                pair_right(&row[d], i as u64, (i + 1 + d) as u64)
            });
            if let Some(d) = found {
                return Some(self.blocks.len() - pairs.len() + d);
            }
            pairs = behind;
        }
        None
    }

    // Questions 4 to 9. Two of them through the loops over blocks, so that these keep their longer tests to themselves.
    #[tactic(auto, unfolding(crate::specs::Place::place_in))]
    fn place_in(self, refusal: Refusal) -> Place
        ensures { result ≡ place_in (words_in self.entry.blocks.now) self.entry.head (number refusal) }
    {
        let Head { n, model, .. } = self.head;
        let solvents = &self.blocks[1..1 + n];
        let pairs = &self.blocks[1 + n..];
        match refusal {
            Refusal::SolventBlock => block_behind(
                1,
                lowest(n, |i| solvent_right(&solvents[i], i as u64)),
            ),
            Refusal::SolventNumber => block_behind(
                1,
                lowest(n, |i| all_records_right(&solvents[i..i + 1])),
            ),
            Refusal::SolventTwice => match first_twice(solvents) {
                Some((i, j)) => Place::Pair(i as u64, j as u64),
                None => Place::Nowhere,
            },
            Refusal::PairBlock => block_behind(0, self.wrong_pair()),
            Refusal::PairNumber => block_behind(
                1 + n,
                lowest(pairs.len(), |d| model.pairs_finite(&pairs[d..d + 1])),
            ),
            Refusal::PairAlphas => block_behind(
                1 + n,
                lowest(pairs.len(), |d| model.alphas_equal(&pairs[d])),
            ),
            _ => Place::Nowhere,
        }
    }
}

// Where a book that is refused so was answered no: the lowest block, or the first pair of solvents with one CAS number.
pub fn place_of(book: &[u8], refusal: Refusal) -> Place
    ensures { result ≡ place_of book.now (number refusal) }
{
    let Some(blocks) = whole_blocks(book) else {
        return Place::Nowhere;
    };
    if let Refusal::BookCheck = refusal {
        let rule = rule_in(&blocks[0]);
        return block_behind(
            0,
            lowest(blocks.len(), |k| blocks::check_right(rule, &blocks[k])),
        );
    }
    match shaped(blocks) {
        Some(book) => book.place_in(refusal),
        None => Place::Nowhere,
    }
}

// Of a preview that is refused so: once the book passed, the offered block has its own numbers.
pub fn preview_place(book: &[u8], refusal: Refusal) -> Place
    ensures { result ≡ preview_place book.now (number refusal) }
{
    if open_book(book).is_err() {
        return place_of(book, refusal);
    }
    match refusal {
        Refusal::BookLength
        | Refusal::BookCheck
        | Refusal::PairBlock
        | Refusal::PairNumber
        | Refusal::PairAlphas => Place::Offered,
        _ => Place::Nowhere,
    }
}
