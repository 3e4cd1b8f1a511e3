// Pooled drums: the call on a book, a question and drums, whose pool is the feed.
#![tactic(auto)]

ghost use Rattle.std.specs.Prelude.{◌≡◌, ℕ, ◌≤◌, ◌<◌, ◌+◌, ◌^◌, min, length, replicate};
ghost use Rattle.floats.specs.Vector.{fill, vec};
ghost use Rattle.outcome.specs.Refused.{outcome_of, number_in};
ghost use Rattle.thermo_types.specs.Composition.{normalize_of};
ghost use Rattle.blocks.specs.Bytes.{word_at};
ghost use Rattle.question.specs.Inputs.{within};
ghost use Rattle.sheet.specs.Sheet.{Answers};
ghost use Rattle.pool.specs.Pool.{total_to, pool_count, drums_right, amount, pooled_of};

use blocks::word;
use floats::Count;
use outcome::Refusal;
use question::{read_rest, read_task};
use replies::ANSWER_ROOM;

// The most that a pool may hold, in micromoles. A sum is kept at one more once it is past that, so that none wraps.
const MOST: u64 = 1 << 53;

fn added(a: u64, b: u64) -> u64
    ensures { result ≡ min (a + b) (2 ^ 53 + 1) }
{
    a.saturating_add(b).min(MOST + 1)
}

// 31
// Kept: `batch::feeds_right` has this body for another question. Shared it is a public function more, with a definition beside
// the two that 31 and 33 go by; and 65 drums, or a drum cut short, could no longer be wrong without the feeds.
#[tactic(auto, unfolding(crate::specs::Pool::drums_right))]
fn drums_right(drums: &[u8]) -> bool
    ensures { result ≡ drums_right drums.now }
{
    drums.len() % 64 == 0 && matches!(drums.len() / 64, 1..=64)
}

// The sum over the drums of their counts of solvent i.
// Kept: `i < 8` is a closure's own index; a type for it would be made at each turn.
fn pool_count(drums: &[u8], i: usize) -> u64
    requires { i < 8 }
    ensures { result ≡ min (pool_count drums.now i) (2 ^ 53 + 1) }
{
    (0..drums.len() / 64).fold(0, |sum, d| added(sum, word(drums, 8 * d + i)))
}

// Of the solvents that count, 0 past them.
fn pool_counts(drums: &[u8], m: Count) -> [u64; 8]
    ensures { result ≡ fill (λ i. min (pool_count drums.now i) (2 ^ 53 + 1)) m.n (replicate 8 0) }
{
    std::array::from_fn(|i| if i < m.n { pool_count(drums, i) } else { 0 })
}

// 32
fn total_right(counts: &[u64; 8], m: Count) -> bool
    ensures { result ≡ within 1 (2 ^ 53) (total_to (word_at counts.now) m.n) }
{
    let sum = (0..m.n).fold(0, |sum, i| added(sum, counts[i]));
    (1..=MOST).contains(&sum)
}

// Counts as floats, each exact.
fn amounts(counts: &[u64; 8], m: Count) -> [f64; 8]
    requires { (i : ℕ) → i < m.n → word_at counts.now i ≤ 2 ^ 53 }
    ensures { result ≡ vec (λ i. amount (word_at counts.now i)) m.n }
{
    std::array::from_fn(|i| if i < m.n { counts[i] as f64 } else { 0.0 })
}

// The mole fractions of a pool.
fn pool_feed(counts: &[u64; 8], m: Count) -> Result<[f64; 8], Refusal>
    requires { (i : ℕ) → i < m.n → word_at counts.now i ≤ 2 ^ 53 }
    ensures { outcome_of result ≡ normalize_of (λ i. amount (word_at counts.now i)) m.n }
{
    thermo_types::normalize(&amounts(counts, m), m.n)
}

// The answer's blocks at the front of the slice; or the question that was answered no, and the slice as it was. The
// questions in their order: the book's, 10, 11 and 12, the drums' 31, 32 and 36, the feed's and the task's own.
pub fn answer(book: &[u8], question: &[u8], drums: &[u8], out: &mut [u8]) -> Result<(), Refusal>
    ensures { Answers (pooled_of book.now question.now drums.now (length out.old)) (number_in result) out.old out.new }
{
    let n = book::open_book(book)?.n;
    let Some(room) = out.first_chunk_mut::<ANSWER_ROOM>() else {
        return Err(Refusal::AnswerShort);
    };
    read_task(book::rule_of(book), question)?;
    if !drums_right(drums) {
        return Err(Refusal::DrumsLength);
    }
    let m = Count::of(n);
    let counts = pool_counts(drums, m);
    if !total_right(&counts, m) {
        return Err(Refusal::DrumsTotal);
    }
    if word(question, 27) != 0 {
        return Err(Refusal::FeedKind);
    }
    let x = pool_feed(&counts, m)?;
    let q = read_rest(question, book, n, &x)?;
    sheet::answer_asked(book, n, q, room)
}
