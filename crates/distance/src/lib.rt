// How far to the next phase change: the flash at P, then at P + 100 × s Pa for s = 1, -1, 2, -2 and on to 1000, -1000. The opened
// book, the tables, the vapor pressures, bubble and dew pressure, and the feed as one liquid and as one vapor are worked out once.
#![tactic(auto)]

ghost use Rattle.std.specs.Prelude.{◌≡◌, ◌<◌, ℕ, Some, Result};
ghost use Rattle.floats.specs.Vector.{places};
ghost use Rattle.floats.specs.Outcome.{ok, bind};
ghost use Rattle.outcome.specs.Refused.{outcome_of};
ghost use Rattle.distance.specs.Distance.{step_count, step_word, hundreds, pressure_at, search_from, searched, distance_of};
ghost use Rattle.distance.specs.Steps.{phases_at, outcome_in, Keeps};

use outcome::Refusal;
use question::{Question, Task, read_question, read_task};
use thermo_types::Pressure;
use tp_flash::FlashFeed;

// s in two's complement, the outcome there and how many steps before it were refused; or no such step, and how many were.
#[derive(Clone, Copy)]
pub enum Distance {
    Step(u64, u64, u64),
    None(u64),
}

// The feed as one liquid and as one vapor: the outcome, once a step needed it.
#[derive(Clone, Copy)]
struct Kept {
    liquid: Option<Result<u64, Refusal>>,
    vapor: Option<Result<u64, Refusal>>,
}

// ---- the steps

const STEPS: u64 = 2000;

// s of step j, counted from 0.
fn step_word(j: u64) -> u64
    requires { j < 2000 }
    ensures { result ≡ step_word j }
{
    let size = j / 2 + 1;
    if j % 2 == 0 {
        size
    } else {
        u64::MAX - size + 1
    }
}

// 100 × |s|, exactly.
fn hundreds(size: u64) -> f64
    requires { size < 1001 }
    ensures { result ≡ hundreds size }
{
    (100 * size) as f64
}

// P + 100 × s, Pa.
fn pressure_at(p: f64, j: u64) -> f64
    requires { j < 2000 }
    ensures { result ≡ pressure_at p j }
{
    let away = hundreds(j / 2 + 1);
    if j % 2 == 0 { p + away } else { p - away }
}

// ---- the outcome of a step

// Word 3 of the flash's answer. The count of its evaluations is of no use here.
fn phases_at(feed: &FlashFeed, p: Pressure) -> Result<u64, Refusal>
    ensures { outcome_of result ≡ phases_at feed.now p.0 }
{
    let mut begun = 0;
    let flash = feed.at(p, &mut begun)?;
    Ok(replies::phase_number(flash.phases))
}

// The same where it is known, or else from now on.
fn phases_once(
    feed: &FlashFeed,
    p: Pressure,
    known: &mut Option<Result<u64, Refusal>>,
) -> Result<u64, Refusal>
    requires { (r : Result ℕ Refusal) → known.old ≡ Some r → outcome_of r ≡ phases_at feed.now p.0 }
    ensures outcome { outcome_of result ≡ phases_at feed.now p.0 }
    ensures known { known.new ≡ Some result }
{
    if let Some(phases) = *known {
        return phases;
    }
    let phases = phases_at(feed, p);
    *known = Some(phases);
    phases
}

// By bubble and dew: one liquid and one vapor are the same at every pressure.
fn outcome_between(feed: &FlashFeed, p: Pressure, kept: &mut Kept) -> Result<u64, Refusal>
    requires { Keeps feed.now kept.old }
    ensures outcome { outcome_of result ≡ phases_at feed.now p.0 }
    ensures kept { Keeps feed.now kept.new }
{
    let pressure = p.value();
    if pressure >= feed.saturated.bubble {
        return phases_once(feed, p, &mut kept.liquid);
    }
    if pressure <= feed.saturated.dew {
        return phases_once(feed, p, &mut kept.vapor);
    }
    phases_at(feed, p)
}

// 14 and 23 first.
fn outcome_at(feed: &FlashFeed, p: f64, kept: &mut Kept) -> Result<u64, Refusal>
    requires { Keeps feed.now kept.old }
    ensures outcome { outcome_of result ≡ outcome_in feed.now p }
    ensures kept { Keeps feed.now kept.new }
{
    let v = Pressure::new(p)?;
    if !thermo_models::check_pressure(v.value()) {
        return Err(Refusal::PressureOutside);
    }
    outcome_between(feed, v, kept)
}

// ---- the search

// The first step with another outcome than at P.
fn search(feed: &FlashFeed, p: f64, outcome: u64, kept: &mut Kept) -> Distance
    requires { Keeps feed.now kept.old }
    ensures { result ≡ search_from (outcome_in feed.now) p outcome step_count 0 0 }
{
    let mut refused = 0;
    for j in 0..STEPS {
        match outcome_at(feed, pressure_at(p, j), kept) {
            Ok(other) => {
                if other != outcome {
                    return Distance::Step(step_word(j), other, refused);
                }
            }
            Err(_) => refused += 1,
        }
    }
    Distance::None(refused)
}

// ---- the call

// The flash at P, then the search.
fn from_feed(feed: &FlashFeed, p: f64) -> Result<Distance, Refusal>
    ensures { outcome_of result ≡ bind (outcome_in feed.now p) (λ o. ok (search_from (outcome_in feed.now) p o step_count 0 0)) }
{
    let mut kept = Kept {
        liquid: None,
        vapor: None,
    };
    let outcome = outcome_at(feed, p, &mut kept)?;
    Ok(search(feed, p, outcome, &mut kept))
}

// A flash that was read, for a book of n solvents.
fn from_question(book: &[u8], n: usize, q: &Question) -> Result<Distance, Refusal>
    requires { q.now.task ≡ 7 }
    ensures { outcome_of result ≡ searched book.now (places n) q.now }
{
    let mut table = [0.0; 512];
    let mut ps = [0.0; 8];
    let at = sheet::make_ready(book, n, 7, q.temperature, q.pressure, &mut table, &mut ps)?;
    let mut begun = 0;
    let feed = tp_flash::flash_feed(&table, at, q.options, &q.fractions, &ps, &mut begun)?;
    from_feed(&feed, q.pressure)
}

// From a flash's pressure to the first step with another outcome; or the question that was answered no, 12 where it is no flash.
pub fn answer(book: &[u8], question: &[u8]) -> Result<Distance, Refusal>
    ensures { outcome_of result ≡ distance_of book.now question.now }
{
    let head = book::open_book(book)?;
    let rule = book::rule_of(book);
    let task = read_task(rule, question)?;
    let Task::Flash = task else {
        return Err(Refusal::Task);
    };
    let q = read_question(rule, question, head.version, book, head.n)?;
    from_question(book, head.n, &q)
}
