// The blocks of an answer, of a trial and of a refusal: 64 words, of which `blocks` makes the last the check.
#![tactic(auto)]

ghost use Rattle.std.specs.Prelude.{◌≡◌, ◌≤◌, ◌+◌, length};
ghost use Rattle.floats.specs.Small.{bits_of};
ghost use Rattle.floats.specs.Vector.{at, fill_from};
ghost use Rattle.blocks.specs.Bytes.{put, stored};
ghost use Rattle.replies.specs.Blocks.{status_number, state_words, model_words, answer_words, trial_words, answer_length, taskless, refused_task, refusal_words, refusal_bytes, put_off_words, put_off_bytes};
ghost use Rattle.replies.specs.Answers.{plain_block, phase_number, excess_block, saturation_block, stability_block, flash_block, rice_block};

use blocks::Rule;
use excess::Energies;
use floats::bits_of;
use liquid_stability::LiquidStabilityTrial;
use rachford_rice::RachfordRiceOutcome;
use saturation::ActivitySaturation;
use thermo_models::{Assessment, ValidityStatus};
use tp_flash::{ActivityTpFlash, FlashPhases};

// The bytes that an answer is lent: its block and eight trials.
pub const ANSWER_ROOM: usize = 4608;

// Words 4 to 13: K, Pa, and counts.
#[derive(Clone, Copy, Default)]
pub struct State {
    pub temperature: f64,
    pub pressure: f64,
    pub bubble: f64,
    pub dew: f64,
    pub iterations: u64,
    pub residual: f64,
    pub balance: f64,
    pub vapor_fraction: f64,
    pub trials: u64,
    pub notes: u64,
}

// Words 30 to 38: g^E / RT, J/mol, J/(mol K), what is said of the state, and the evaluations that a flash began.
#[derive(Clone, Copy, Default)]
pub struct ModelState {
    pub reduced: f64,
    pub gibbs: f64,
    pub enthalpy: f64,
    pub entropy: f64,
    pub heat_capacity: f64,
    pub validity: ValidityStatus,
    pub inferred: bool,
    pub stable: bool,
    pub evaluations: u64,
}

// Kept: `outcome` is the block's word 3, whose numbers mean something else in each task.
#[derive(Clone, Copy)]
pub struct AnswerBlock {
    pub outcome: u64,
    pub state: State,
    pub liquid: [f64; 8],
    pub vapor: [f64; 8],
    pub model: ModelState,
}

// ---- the words of a block

// 0 unassessed, 1 within, 2 extrapolated.
// Kept: a cast, here and in exports: a `From` in the type's own crate is longer than both.
fn status_number(status: ValidityStatus) -> u64
    ensures { result ≡ status_number status }
{
    status as u64
}

#[inline(always)]
#[tactic(auto, unfolding(crate::specs::Blocks::state_words))]
fn state_words(s: State) -> [u64; 10]
    ensures { result ≡ state_words s }
{
    [
        bits_of(s.temperature),
        bits_of(s.pressure),
        bits_of(s.bubble),
        bits_of(s.dew),
        s.iterations,
        bits_of(s.residual),
        bits_of(s.balance),
        bits_of(s.vapor_fraction),
        s.trials,
        s.notes,
    ]
}

#[inline(always)]
#[tactic(auto, unfolding(crate::specs::Blocks::model_words))]
fn model_words(m: ModelState) -> [u64; 9]
    ensures { result ≡ model_words m }
{
    [
        bits_of(m.reduced),
        bits_of(m.gibbs),
        bits_of(m.enthalpy),
        bits_of(m.entropy),
        bits_of(m.heat_capacity),
        status_number(m.validity),
        u64::from(m.inferred),
        u64::from(m.stable),
        m.evaluations,
    ]
}

#[inline(always)]
fn put_words(ws: &mut [u64; 64], from: usize, words: &[u64])
    requires { from + length words.now ≤ 64 }
    ensures { ws.new ≡ put ws.old from words.now }
{
    ws[from..from + words.len()].copy_from_slice(words);
}

// Kept: a loop: `put_words` of `from_fn(|i| bits_of(x[i]))` takes 4.5 ns for 5.8, but the proof didn't close: the law of what
// `from_fn` made (`filled`) wants the closure's value past the eight too, which no index reaches.
#[inline(always)]
#[tactic(auto, unfolding(floats::specs::Vector::fill_from))]
fn put_floats(ws: &mut [u64; 64], from: usize, x: &[f64; 8])
    requires { from + 8 ≤ 64 }
    ensures { ws.new ≡ fill_from (λ i. bits_of (at x.now i)) from 8 ws.old }
{
    for i in 0usize..8 {
        ws[from + i] = bits_of(x[i]);
    }
}

#[inline(always)]
#[tactic(auto, unfolding(crate::specs::Blocks::state_words, crate::specs::Blocks::model_words, crate::specs::Blocks::answer_words, floats::specs::Vector::fill_from))]
pub fn answer_words(task: u64, b: AnswerBlock) -> [u64; 64]
    ensures { result ≡ answer_words task b }
{
    let mut ws = [0u64; 64];
    ws[0] = 9;
    ws[1] = task;
    ws[3] = b.outcome;
    put_words(&mut ws, 4, &state_words(b.state));
    put_floats(&mut ws, 14, &b.liquid);
    put_floats(&mut ws, 22, &b.vapor);
    put_words(&mut ws, 30, &model_words(b.model));
    ws
}

#[tactic(auto, unfolding(crate::specs::Blocks::trial_words))]
pub fn trial_words(t: LiquidStabilityTrial) -> [u64; 64]
    ensures { result ≡ trial_words t }
{
    let mut ws = [0u64; 64];
    ws[0] = 10;
    ws[1] = t.component as u64;
    ws[2] = bits_of(t.distance);
    ws[3] = t.iterations;
    ws[4] = u64::from(t.trivial);
    put_floats(&mut ws, 5, &t.composition);
    ws
}

// The bytes of the answer at the front of a slice: its block and as many trials as word 12 says, at most eight.
#[tactic(auto, unfolding(crate::specs::Blocks::answer_length))]
pub fn answer_length(answer: &[u8]) -> usize
    ensures { result ≡ answer_length answer.now }
{
    let trials = blocks::word(answer, 12);
    if trials <= 8 {
        512 * (1 + trials as usize)
    } else {
        512
    }
}

// ---- a refusal's block

// The numbers that are put before the task is known: their block has task 0.
// Kept: a number, here and below: `write_refusal` is public, and takes 0 and 33 too.
fn taskless(number: u64) -> bool
    ensures { result ≡ taskless number }
{
    matches!(number, 0..=12 | 35 | 37 | 38)
}

#[tactic(auto, unfolding(crate::specs::Blocks::refused_task))]
fn refused_task(question: &[u8], number: u64) -> u64
    ensures { result ≡ refused_task question.now number }
{
    if taskless(number) {
        0
    } else {
        blocks::word(question, 1)
    }
}

// Words 0, 1 and 2.
#[tactic(auto, unfolding(crate::specs::Blocks::refusal_words))]
pub fn refusal_words(question: &[u8], number: u64) -> [u64; 64]
    ensures { result ≡ refusal_words question.now number }
{
    let mut ws = [0u64; 64];
    ws[0] = 9;
    ws[1] = refused_task(question, number);
    ws[2] = number;
    ws
}

// At the front of a slice; where it is too short, nothing.
#[tactic(auto, unfolding(crate::specs::Blocks::refusal_bytes))]
pub fn write_refusal(rule: Rule, question: &[u8], number: u64, out: &mut [u8])
    ensures { out.new ≡ stored out.old 0 (refusal_bytes rule question.now number) }
{
    blocks::write_block(out, rule, &refusal_words(question, number));
}

// ---- the block of a question that a queue puts off

// Its word 3.
const PUT_OFF: u64 = 4;

#[tactic(auto, unfolding(crate::specs::Blocks::put_off_words))]
fn put_off_words() -> [u64; 64]
    ensures { result ≡ put_off_words }
{
    let mut ws = [0u64; 64];
    ws[0] = 9;
    ws[1] = 7;
    ws[3] = PUT_OFF;
    ws
}

// At the front of a slice; where it is too short, nothing.
#[tactic(auto, unfolding(crate::specs::Blocks::put_off_bytes))]
pub fn write_put_off(rule: Rule, out: &mut [u8])
    ensures { out.new ≡ stored out.old 0 (put_off_bytes rule) }
{
    blocks::write_block(out, rule, &put_off_words());
}

// ---- the answer block of each task

// Of a task that has none of the model's words but, in 6 and 7, whether the liquid is stable, and in 7 the evaluations.
#[inline(always)]
fn plain_block(
    outcome: u64,
    state: State,
    liquid: [f64; 8],
    vapor: [f64; 8],
    stable: bool,
    evaluations: u64,
) -> AnswerBlock
    ensures { result ≡ plain_block outcome state liquid vapor stable evaluations }
{
    AnswerBlock {
        outcome,
        state,
        liquid,
        vapor,
        model: ModelState {
            stable,
            evaluations,
            ..ModelState::default()
        },
    }
}

// Task 1.
// Kept: the energies' five fields one by one: nested, the block's words and their definition would read one name more each.
pub fn excess_block(
    t: f64,
    e: Energies,
    v: Assessment,
    ln_gamma: [f64; 8],
    slopes: [f64; 8],
) -> AnswerBlock
    ensures { result ≡ excess_block t (record { ln_gamma = ln_gamma; slopes = slopes; reduced = e.reduced; gibbs = e.gibbs; enthalpy = e.enthalpy; entropy = e.entropy; heat_capacity = e.heat_capacity }) v }
{
    AnswerBlock {
        outcome: 0,
        state: State {
            temperature: t,
            ..State::default()
        },
        liquid: ln_gamma,
        vapor: slopes,
        model: ModelState {
            reduced: e.reduced,
            gibbs: e.gibbs,
            enthalpy: e.enthalpy,
            entropy: e.entropy,
            heat_capacity: e.heat_capacity,
            validity: v.status,
            inferred: v.inferred,
            stable: false,
            evaluations: 0,
        },
    }
}

// Tasks 2 to 5.
pub fn saturation_block(s: ActivitySaturation) -> AnswerBlock
    ensures { result ≡ saturation_block s }
{
    let state = State {
        temperature: s.temperature,
        pressure: s.pressure,
        iterations: s.iterations,
        residual: s.residual,
        ..State::default()
    };
    plain_block(0, state, s.liquid, s.vapor, false, 0)
}

// Task 6.
pub fn stability_block(stable: bool, count: usize) -> AnswerBlock
    ensures { result ≡ stability_block stable count }
{
    let state = State {
        trials: count as u64,
        ..State::default()
    };
    plain_block(0, state, [0.0; 8], [0.0; 8], stable, 0)
}

// 1 liquid, 2 vapor, 3 both.
pub fn phase_number(phases: FlashPhases) -> u64
    ensures { result ≡ phase_number phases }
{
    phases as u64
}

// Task 7.
pub fn flash_block(t: f64, p: f64, f: ActivityTpFlash, evaluations: u64) -> AnswerBlock
    ensures { result ≡ flash_block t p f evaluations }
{
    let state = State {
        temperature: t,
        pressure: p,
        bubble: f.bubble,
        dew: f.dew,
        iterations: f.iterations,
        residual: f.residual,
        balance: f.balance,
        vapor_fraction: f.vapor_fraction,
        trials: f.trials.unwrap_or(liquid_stability::no_trials()).count as u64,
        notes: f.notes,
    };
    plain_block(
        phase_number(f.phases),
        state,
        f.liquid,
        f.vapor,
        f.trials.is_some(),
        evaluations,
    )
}

// Tasks 8 and 9.
#[inline(always)]
#[tactic(auto, unfolding(crate::specs::Answers::rice_block))]
pub fn rice_block(outcome: RachfordRiceOutcome, liquid: [f64; 8], vapor: [f64; 8]) -> AnswerBlock
    ensures { result ≡ rice_block outcome liquid vapor }
{
    let state = match outcome {
        RachfordRiceOutcome::TwoPhase(vapor_fraction, residual, iterations) => State {
            vapor_fraction,
            residual,
            iterations,
            ..State::default()
        },
        _ => State::default(),
    };
    plain_block(outcome.number(), state, liquid, vapor, false, 0)
}
