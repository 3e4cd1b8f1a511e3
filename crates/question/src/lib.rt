// The question: 512 bytes on standard input or from the desk. Three steps: block and task (11, 12), the feed (36), and
// the rest (13 to 21), put to that feed; 34 where mass fractions can't be brought to moles.
#![tactic(auto)]

ghost use Rattle.std.specs.Prelude.{◌≡◌, ◌+◌, ◌%◌, ◌≤◌, ◌&&◌};
ghost use Rattle.floats.specs.Arithmetic.{◌⊘◌};
ghost use Rattle.floats.specs.Small.{float};
ghost use Rattle.floats.specs.Vector.{at, vec, places};
ghost use Rattle.floats.specs.Outcome.{ok, need};
ghost use Rattle.thermo_types.specs.Composition.{all_finite, none_negative, all_positive, sums_to_one, normalize_of};
ghost use Rattle.outcome.specs.Refused.{outcome_of};
ghost use Rattle.blocks.specs.Words.{word};
ghost use Rattle.book.specs.Places.{words};
ghost use Rattle.book.specs.Book.{molar_mass};
ghost use Rattle.question.specs.Inputs.{is_task, task_number, task_found, needs_temperature, needs_pressure, needs_options, needs_ratios, if_needed};
ghost use Rattle.question.specs.Asked.{task_in, kind_right, feed_of, temperature_right, pressure_right, inputs_finite, ratios_positive, inputs_right, tolerance_right, options_right, limited, limits_some, limits_few, limits_right, ratios_of, moles_of, options_in, question_from, rest_of, question_of};

use blocks::{Rule, word};
use book::float_at;
use outcome::Refusal;
use std::hint::select_unpredictable;
use thermo_types::ActivityOptions;

// What is asked, by the number in word 1.
#[derive(Clone, Copy)]
pub enum Task {
    Activity = 1,
    BubblePressure,
    DewPressure,
    BubbleTemperature,
    DewTemperature,
    Stability,
    Flash,
    Split,
    NegativeSplit,
}

impl From<Task> for u64 {
    ghost from_gives = { λ task n. n ≡ task_number task };

    fn from(task: Task) -> u64 {
        task as u64
    }
}

// 12
impl TryFrom<u64> for Task {
    type Error = Refusal;

    ghost try_from_gives = { λ n task. task_found task ≡ need (is_task n) 12 (ok n) };

    #[tactic(auto, unfolding(floats::specs::Outcome::need))]
    fn try_from(number: u64) -> Result<Task, Refusal> {
        match number {
            1 => Ok(Task::Activity),
            2 => Ok(Task::BubblePressure),
            3 => Ok(Task::DewPressure),
            4 => Ok(Task::BubbleTemperature),
            5 => Ok(Task::DewTemperature),
            6 => Ok(Task::Stability),
            7 => Ok(Task::Flash),
            8 => Ok(Task::Split),
            9 => Ok(Task::NegativeSplit),
            _ => Err(Refusal::Task),
        }
    }
}

// K, Pa; the first n fractions and K values, 0.0 past them.
#[derive(Clone, Copy)]
pub struct Question {
    // Kept: a number: a narrower type would ask more of who calls `sheet::answer_asked`.
    pub task: u64,
    pub temperature: f64,
    pub pressure: f64,
    pub fractions: [f64; 8],
    pub options: ActivityOptions,
    pub ratios: [f64; 8],
}

// Of the options' tolerances.
const LARGEST_TOLERANCE: f64 = 1e-6;

// Kept: by number, here and below, since a question's task is one; each test of a block reads word 1 as its definition does.
pub fn needs_temperature(task: u64) -> bool
    ensures { result ≡ needs_temperature task }
{
    matches!(task, 1..=3 | 6..=7)
}

pub fn needs_pressure(task: u64) -> bool
    ensures { result ≡ needs_pressure task }
{
    matches!(task, 4..=5 | 7)
}

// The options and both limits.
fn needs_options(task: u64) -> bool
    ensures { result ≡ needs_options task }
{
    matches!(task, 3..=7)
}

// The K values, and of the limits M alone.
fn needs_ratios(task: u64) -> bool
    ensures { result ≡ needs_ratios task }
{
    matches!(task, 8..=9)
}

// The first n floats from word `from` on, 0.0 past them.
pub fn floats_from(q: &[u8], from: usize, n: usize) -> [f64; 8]
    ensures { result ≡ vec (λ i. float (word q.now) (from + i)) (places n) }
{
    let m = floats::places(n);
    std::array::from_fn(|i| {
        if i < m {
            float_at(q, from.saturating_add(i))
        } else {
            0.0
        }
    })
}

// Word k of a whole block as a float, read with no test for its end.
// Kept: book has such a reader too: shared it would be a `pub fn`, for two lines.
#[tactic(auto, unfolding(blocks::specs::Words::word))]
fn float_in(q: &[u8; 512], k: usize) -> f64
    ensures { result ≡ float (word q.now) (k % 64) }
{
    let from = 8 * (k % 64);
    floats::float_of(u64::from_le_bytes(q[from..from + 8].try_into().unwrap()))
}

// The first n floats of a whole block from word `from` on, 0.0 past them. All eight are read, so that none waits for a test.
#[inline(always)]
fn floats_in(q: &[u8; 512], from: usize, n: usize) -> [f64; 8]
    requires { from ≤ 56 }
    ensures { result ≡ vec (λ i. float (word q.now) (from + i)) (places n) }
{
    let m = floats::places(n);
    std::array::from_fn(|i| select_unpredictable(i < m, float_in(q, from.saturating_add(i)), 0.0))
}

// 13
fn temperature_right(q: &[u8]) -> bool
    ensures { result ≡ temperature_right (word q.now) }
{
    !needs_temperature(word(q, 1)) || floats::positive(float_at(q, 2))
}

// 14
fn pressure_right(q: &[u8]) -> bool
    ensures { result ≡ pressure_right (word q.now) }
{
    !needs_pressure(word(q, 1)) || floats::positive(float_at(q, 3))
}

// 15
fn inputs_finite(q: &[u8], n: usize, x: &[f64; 8], k: &[f64; 8]) -> bool
    ensures { result ≡ inputs_finite (word q.now) (places n) x.now k.now }
{
    thermo_types::all_finite(x, n) && (!needs_ratios(word(q, 1)) || thermo_types::all_finite(k, n))
}

// 17
fn ratios_positive(q: &[u8], n: usize, k: &[f64; 8]) -> bool
    ensures { result ≡ ratios_positive (word q.now) (places n) k.now }
{
    !needs_ratios(word(q, 1)) || thermo_types::all_positive(k, n)
}

#[tactic(auto, unfolding(crate::specs::Asked::tolerance_right, floats::specs::Small::positive))]
fn tolerance_right(v: f64) -> bool
    ensures { result ≡ tolerance_right v }
{
    floats::positive(v) && v <= LARGEST_TOLERANCE
}

// `validate`: both tolerances, the threshold, the bracket (K).
#[tactic(auto, unfolding(crate::specs::Asked::options_right))]
fn options_right(q: &[u8]) -> bool
    ensures { result ≡ options_right (word q.now) }
{
    let threshold = float_at(q, 16);
    let low = float_at(q, 17);
    let high = float_at(q, 18);
    tolerance_right(float_at(q, 13))
        && tolerance_right(float_at(q, 15))
        && (floats::is_finite(threshold) && threshold < 0.0)
        && (thermo_types::LOWEST_KELVIN <= low
            && high <= thermo_types::HIGHEST_KELVIN
            && low < high)
}

// 19
fn options_pass(q: &[u8]) -> bool
    ensures { result ≡ if_needed (needs_options (word q.now 1)) (options_right (word q.now)) }
{
    !needs_options(word(q, 1)) || options_right(q)
}

// 20
fn limits_some(q: &[u8]) -> bool
    ensures { result ≡ limits_some (word q.now) }
{
    !needs_options(word(q, 1)) || (word(q, 12) != 0 && word(q, 14) != 0)
}

fn limited(m: u64) -> bool
    ensures { result ≡ limited m }
{
    m <= 1000000
}

// 21
fn limits_few(q: &[u8]) -> bool
    ensures { result ≡ limits_few (word q.now) }
{
    let task = word(q, 1);
    let most = limited(word(q, 12));
    (!needs_options(task) || (most && limited(word(q, 14)))) && (!needs_ratios(task) || most)
}

// Six fields by their words.
#[inline(always)]
#[tactic(auto, unfolding(crate::specs::Asked::options_in))]
fn options_in(q: &[u8]) -> ActivityOptions
    ensures { result ≡ options_in (word q.now) }
{
    ActivityOptions {
        max_iterations: word(q, 12),
        tolerance: float_at(q, 13),
        max_temperature_iterations: word(q, 14),
        tm_threshold: float_at(q, 16),
        minimum_temperature_k: float_at(q, 17),
        maximum_temperature_k: float_at(q, 18),
    }
}

#[inline(always)]
#[tactic(auto, unfolding(crate::specs::Asked::question_from))]
fn question_from(q: &[u8], x: &[f64; 8], k: &[f64; 8]) -> Question
    ensures { result ≡ question_from (word q.now) x.now k.now }
{
    Question {
        task: word(q, 1),
        temperature: float_at(q, 2),
        pressure: float_at(q, 3),
        fractions: *x,
        options: options_in(q),
        ratios: *k,
    }
}

// 36: mass fractions only where the book's version has molar masses.
#[tactic(auto, unfolding(crate::specs::Asked::kind_right))]
pub fn kind_right(version: u64, q: &[u8]) -> bool
    ensures { result ≡ kind_right version (word q.now) }
{
    let kind = word(q, 27);
    kind == 0 || (kind == 1 && book::has_masses(version))
}

// Fraction over molar mass (kg/mol): mol of each solvent in a kg of the feed.
fn over_masses(book: &[u8], n: usize, x: &[f64; 8]) -> [f64; 8]
    ensures { result ≡ vec (λ i. at x.now i ⊘ molar_mass (words book.now) i) (places n) }
{
    let m = floats::places(n);
    std::array::from_fn(|i| {
        if i < m {
            x[i] / float_at(blocks::block(book, i + 1), 45)
        } else {
            0.0
        }
    })
}

// Of mass fractions: 34.
#[cold]
#[inline(never)]
fn moles_by_mass(book: &[u8], n: usize, x: &[f64; 8]) -> Result<[f64; 8], Refusal>
    ensures { outcome_of result ≡ normalize_of (λ i. at x.now i ⊘ molar_mass (words book.now) i) (places n) }
{
    let amounts = over_masses(book, n, x);
    thermo_types::normalize(&amounts, n)
}

// The mole fractions of a feed by word 27.
#[inline(always)]
#[tactic(auto, unfolding(crate::specs::Asked::moles_of, floats::specs::Outcome::choose))]
fn moles(q: &[u8], book: &[u8], n: usize, x: &[f64; 8]) -> Result<[f64; 8], Refusal>
    ensures { outcome_of result ≡ moles_of (word q.now) (molar_mass (words book.now)) (places n) x.now }
{
    if word(q, 27) == 1 {
        moles_by_mass(book, n, x)
    } else {
        Ok(*x)
    }
}

// Questions 19 to 21.
#[inline(always)]
#[tactic(auto, unfolding(crate::specs::Asked::limits_right, floats::specs::Outcome::need))]
fn check_limits(q: &[u8]) -> Result<(), Refusal>
    ensures { outcome_of result ≡ limits_right (word q.now) (ok tt) }
{
    if !options_pass(q) {
        return Err(Refusal::Options);
    }
    if !limits_some(q) {
        return Err(Refusal::LimitZero);
    }
    if !limits_few(q) {
        return Err(Refusal::LimitHigh);
    }
    Ok(())
}

// Questions 13 to 18 of the feed x and the K values k, in one reading of each.
// Kept: four parameters and no struct, here and below: `inputs_finite` alone reads them all.
#[inline(always)]
fn inputs_pass(q: &[u8], n: usize, x: &[f64; 8], k: &[f64; 8]) -> bool
    ensures { result ≡ ((temperature_right (word q.now) && pressure_right (word q.now)) && (((all_finite (at x.now) (places n) && none_negative (at x.now) (places n)) && sums_to_one (at x.now) (places n)) && if_needed (needs_ratios (word q.now 1)) (all_finite (at k.now) (places n) && all_positive (at k.now) (places n)))) }
{
    (temperature_right(q) && pressure_right(q))
        && (thermo_types::are_fractions(x, n)
            && (!needs_ratios(word(q, 1)) || thermo_types::are_ratios(k, n)))
}

// Questions 13 to 18 one after the other, where one of them is answered no.
#[cold]
#[inline(never)]
#[tactic(auto, unfolding(crate::specs::Asked::inputs_right, floats::specs::Outcome::need))]
fn first_wrong(q: &[u8], n: usize, x: &[f64; 8], k: &[f64; 8]) -> Result<(), Refusal>
    ensures { outcome_of result ≡ inputs_right (word q.now) (places n) x.now k.now (ok tt) }
{
    if !temperature_right(q) {
        return Err(Refusal::Temperature);
    }
    if !pressure_right(q) {
        return Err(Refusal::Pressure);
    }
    if !inputs_finite(q, n, x, k) {
        return Err(Refusal::NotFinite);
    }
    if !thermo_types::none_negative(x, n) {
        return Err(Refusal::FractionNegative);
    }
    if !ratios_positive(q, n, k) {
        return Err(Refusal::KNotPositive);
    }
    if !thermo_types::sums_to_one(x, n) {
        return Err(Refusal::FractionSum);
    }
    Ok(())
}

// Questions 13 to 18.
#[inline(always)]
#[tactic(auto)]
fn check_inputs(q: &[u8], n: usize, x: &[f64; 8], k: &[f64; 8]) -> Result<(), Refusal>
    ensures { outcome_of result ≡ inputs_right (word q.now) (places n) x.now k.now (ok tt) }
{
    if inputs_pass(q, n, x, k) {
        return Ok(());
    }
    first_wrong(q, n, x, k)
}

// Questions 11 and 12: the task.
#[tactic(auto, unfolding(crate::specs::Asked::task_in, floats::specs::Outcome::need))]
pub fn read_task(rule: Rule, q: &[u8]) -> Result<Task, Refusal>
    ensures { task_found result ≡ task_in rule q.now }
{
    if q.len() != 512 || !blocks::check_right(rule, q) || word(q, 0) != 8 {
        return Err(Refusal::QuestionBlock);
    }
    Task::try_from(word(q, 1))
}

// The first n fractions, 0.0 past them.
pub fn read_feed(q: &[u8], n: usize) -> [f64; 8]
    ensures { result ≡ feed_of q.now (places n) }
{
    floats_from(q, 4, n)
}

// Questions 13 to 21, put to the feed x with the K values k: what the solvers read, or the first that is answered no.
#[inline(always)]
fn rest_with(
    q: &[u8],
    book: &[u8],
    n: usize,
    x: &[f64; 8],
    k: &[f64; 8],
) -> Result<Question, Refusal>
    requires { k.now ≡ ratios_of q.now (places n) }
    ensures { outcome_of result ≡ rest_of q.now (molar_mass (words book.now)) (places n) x.now }
{
    check_inputs(q, n, x, k)?;
    let z = moles(q, book, n, x)?;
    check_limits(q)?;
    Ok(question_from(q, &z, k))
}

// Questions 13 to 21, put to the feed x: what the solvers read, or the first that is answered no.
pub fn read_rest(q: &[u8], book: &[u8], n: usize, x: &[f64; 8]) -> Result<Question, Refusal>
    ensures { outcome_of result ≡ rest_of q.now (molar_mass (words book.now)) (places n) x.now }
{
    rest_with(q, book, n, x, &floats_from(q, 19, n))
}

// The question for a book of that version and n solvents, or the first of questions 11 to 21 and 36 that is answered no.
// By way of the whole block, whose words are read with no test. Inlined, so that the question is made where it is used.
#[inline(always)]
#[tactic(auto, unfolding(crate::specs::Asked::question_of, floats::specs::Outcome::bind, floats::specs::Outcome::need))]
pub fn read_question(
    rule: Rule,
    q: &[u8],
    version: u64,
    book: &[u8],
    n: usize,
) -> Result<Question, Refusal>
    ensures { outcome_of result ≡ question_of rule q.now version (molar_mass (words book.now)) (places n) }
{
    let Ok(whole) = <&[u8; 512]>::try_from(q) else {
        return Err(Refusal::QuestionBlock);
    };
    read_task(rule, q)?;
    if !kind_right(version, q) {
        return Err(Refusal::FeedKind);
    }
    let x = floats_in(whole, 4, n);
    let k = floats_in(whole, 19, n);
    rest_with(q, book, n, &x, &k)
}
