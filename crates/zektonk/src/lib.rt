// The names under which desks in C, Rust and Python call the core; bindings/c/zektonk.h has their prototypes. A slice passes as a pointer and a length.
#![tactic(auto)]

ghost use Rattle.std.specs.Prelude.{cond, length, drop, nat_le, ◌++◌, ◌≡◌};
ghost use Rattle.sheet.specs.Sheet.{sheet_of, number_of, slice_of, Answers};
ghost use Rattle.pool.specs.Pool.{pooled_of};
ghost use Rattle.batch.specs.Feeds.{feeds_of};
ghost use Rattle.queue.specs.Queue.{queue_of};
ghost use Rattle.preview.specs.Preview.{preview_of};
ghost use Rattle.distance.specs.Distance.{distance_of, distance_number, four_words, four_in, distance_written};
ghost use Rattle.readers.specs.Readers.{floor_to, Fills, lab_of, lab_bytes};
ghost use Rattle.outcome.specs.Refused.{number_in, outcome_of};
ghost use Rattle.book.specs.Place.{place_of, preview_place, place_words, place_written, place_from};
ghost use Rattle.sentences.specs.Sentence.{sentence_to, sentence_number, sentence_written, sentence_length};

use book::Place;
use distance::Distance;
use outcome::{Refusal, number_in};

// 0 and the answer's blocks at the front of `out`; or the number of the question that was answered no, and `out` as it was.
#[unsafe(no_mangle)]
pub extern "C" fn zektonk_answer(book: &[u8], question: &[u8], out: &mut [u8]) -> u64
    ensures { Answers (sheet_of book.now question.now (length out.old)) result out.old out.new }
{
    number_in(sheet::answer(book, question, out))
}

// The same with the pool of 1 to 64 drums, each eight counts of micromoles, as the feed.
#[unsafe(no_mangle)]
pub extern "C" fn zektonk_pooled(book: &[u8], question: &[u8], drums: &[u8], out: &mut [u8]) -> u64
    ensures { Answers (pooled_of book.now question.now drums.now (length out.old)) result out.old out.new }
{
    number_in(pool::answer(book, question, drums, out))
}

// One question put to each of 1 to 64 feeds of 64 bytes: 0 and each feed's blocks at the front of its own 4,608 bytes of `out`, an
// answer's or a refusal's; or a number, and `out` as it was.
#[unsafe(no_mangle)]
pub extern "C" fn zektonk_feeds(book: &[u8], question: &[u8], feeds: &[u8], out: &mut [u8]) -> u64
    ensures { (result ≡ number_of (feeds_of book.now question.now feeds.now out.old)) × (out.new ≡ slice_of (feeds_of book.now question.now feeds.now out.old) out.old) }
{
    number_in(batch::answer(book, question, feeds, out))
}

// Up to 64 flash questions under an allowance of activity evaluations: 0 and each question's blocks at the front of its own 4,608
// bytes of `out`, an answer's, a refusal's, or the one of a question that is put off; or a number, and `out` as it was.
#[unsafe(no_mangle)]
pub extern "C" fn zektonk_queue(
    book: &[u8],
    questions: &[u8],
    allowance: u64,
    out: &mut [u8],
) -> u64
    ensures { (result ≡ number_of (queue_of book.now questions.now allowance out.old)) × (out.new ≡ slice_of (queue_of book.now questions.now allowance out.old) out.old) }
{
    number_in(queue::answer(book, questions, allowance, out))
}

// As `zektonk_answer` on a copy of the book that holds the offered pair block in the place of its own; the book is only read.
#[unsafe(no_mangle)]
pub extern "C" fn zektonk_preview(
    book: &[u8],
    offered: &[u8],
    question: &[u8],
    out: &mut [u8],
) -> u64
    ensures { Answers (preview_of book.now offered.now question.now (length out.old)) result out.old out.new }
{
    number_in(preview::answer(book, offered, question, out))
}

// A distance as four words: 1, s, the outcome and the count of refused steps before it; or 0, 0, 0 and the count of all refused.
fn four_words(distance: Distance) -> [u64; 4]
    ensures { result ≡ four_words distance }
{
    match distance {
        Distance::Step(s, outcome, refused) => [1, s, outcome, refused],
        Distance::None(refused) => [0, 0, 0, refused],
    }
}

// Words at the front of a slice that has room for them.
fn store<const N: usize>(words: [u64; N], out: &mut [u64])
    ensures { out.new ≡ cond (nat_le N (length out.old)) (words.entry ++ drop N out.old) out.old }
{
    let Some(front) = out.first_chunk_mut::<N>() else {
        return;
    };
    *front = words;
}

// The four words of what was found, or the refusal, and `out` as it was.
#[tactic(auto, unfolding(distance::specs::Distance::distance_number, distance::specs::Distance::distance_written, distance::specs::Distance::four_in))]
fn give_distance(found: Result<Distance, Refusal>, out: &mut [u64]) -> Result<(), Refusal>
    ensures { (number_in result ≡ distance_number (outcome_of found)) × (out.new ≡ distance_written (outcome_of found) out.old) }
{
    store(four_words(found?), out);
    Ok(())
}

// From a flash's pressure to the next phase change, in steps of 100 Pa: 0 and in `out` the words 1, s in two's complement, the
// outcome there and the count of refused steps before it, or 0, 0, 0 and the count of all refused where no step of the 2000 has
// another outcome; or a number, and `out` as it was. A slice of fewer than four words stays as it was.
#[unsafe(no_mangle)]
pub extern "C" fn zektonk_distance(book: &[u8], question: &[u8], out: &mut [u64]) -> u64
    ensures { (result ≡ distance_number (distance_of book.now question.now)) × (out.new ≡ distance_written (distance_of book.now question.now) out.old) }
{
    number_in(give_distance(distance::answer(book, question), out))
}

// What the floor is shown of an answer: 0 and its 22 words at the front of `words`; or 1 where `answer` doesn't begin with an
// answer's blocks, then 10 where fewer words are lent, and `words` as it was.
#[unsafe(no_mangle)]
pub extern "C" fn zektonk_floor(answer: &[u8], words: &mut [u64]) -> u64
    ensures { Fills (floor_to answer.now (length words.old)) result words.old words.new }
{
    number_in(readers::write_floor(answer, words))
}

// How many bytes at the front of `answer` the lab is shown, the answer's block and its trials; 0 where it doesn't begin with these.
#[unsafe(no_mangle)]
pub extern "C" fn zektonk_lab(answer: &[u8]) -> usize
    ensures { result ≡ lab_bytes (lab_of answer.now) }
{
    match readers::lab(answer) {
        Ok(part) => part.len(),
        Err(_) => 0,
    }
}

// ---- the same calls with the place beside the number

// A place as three words: its kind (0 none, 1 a block, 2 a pair, 3 the offered block), then the block or i and j, else 0.
#[tactic(auto, unfolding(book::specs::Place::place_words))]
fn place_words(place: Place) -> [u64; 3]
    ensures { result ≡ place_words place }
{
    match place {
        Place::Nowhere => [0, 0, 0],
        Place::Block(k) => [1, k, 0],
        Place::Pair(i, j) => [2, i, j],
        Place::Offered => [3, 0, 0],
    }
}

// At the front of a slice that has room for them.
#[tactic(auto, unfolding(book::specs::Place::place_written))]
fn store_place(place: Place, out: &mut [u64])
    ensures { out.new ≡ place_written place out.old }
{
    store(place_words(place), out);
}

// Read back; another kind, or fewer words, is no place.
#[tactic(auto, unfolding(book::specs::Place::place_from))]
fn place_from(words: &[u64]) -> Place
    ensures { result ≡ place_from words.now }
{
    match words {
        [1, k, _, ..] => Place::Block(*k),
        [2, i, j, ..] => Place::Pair(*i, *j),
        [3, _, _, ..] => Place::Offered,
        _ => Place::Nowhere,
    }
}

// Where a call said no; nowhere if it did not.
fn place_in(book: &[u8], answered: Result<(), Refusal>) -> Place
    ensures { result ≡ place_of book.now (number_in answered) }
{
    match answered {
        Ok(()) => Place::Nowhere,
        Err(refusal) => book::place_of(book, refusal),
    }
}

fn preview_place_in(book: &[u8], answered: Result<(), Refusal>) -> Place
    ensures { result ≡ preview_place book.now (number_in answered) }
{
    match answered {
        Ok(()) => Place::Nowhere,
        Err(refusal) => book::preview_place(book, refusal),
    }
}

// As `zektonk_answer`; in `place` three words say where the book said no. Fewer words stay as they were, here and below.
#[unsafe(no_mangle)]
pub extern "C" fn zektonk_answer_placed(
    book: &[u8],
    question: &[u8],
    out: &mut [u8],
    place: &mut [u64],
) -> u64
    ensures { Answers (sheet_of book.now question.now (length out.old)) result out.old out.new × (place.new ≡ place_written (place_of book.now result) place.old) }
{
    let answered = sheet::answer(book, question, out);
    store_place(place_in(book, answered), place);
    number_in(answered)
}

// As `zektonk_pooled`.
#[unsafe(no_mangle)]
pub extern "C" fn zektonk_pooled_placed(
    book: &[u8],
    question: &[u8],
    drums: &[u8],
    out: &mut [u8],
    place: &mut [u64],
) -> u64
    ensures { Answers (pooled_of book.now question.now drums.now (length out.old)) result out.old out.new × (place.new ≡ place_written (place_of book.now result) place.old) }
{
    let answered = pool::answer(book, question, drums, out);
    store_place(place_in(book, answered), place);
    number_in(answered)
}

// As `zektonk_feeds`.
#[unsafe(no_mangle)]
pub extern "C" fn zektonk_feeds_placed(
    book: &[u8],
    question: &[u8],
    feeds: &[u8],
    out: &mut [u8],
    place: &mut [u64],
) -> u64
    ensures { ((result ≡ number_of (feeds_of book.now question.now feeds.now out.old)) × (out.new ≡ slice_of (feeds_of book.now question.now feeds.now out.old) out.old)) × (place.new ≡ place_written (place_of book.now result) place.old) }
{
    let answered = batch::answer(book, question, feeds, out);
    store_place(place_in(book, answered), place);
    number_in(answered)
}

// As `zektonk_queue`.
#[unsafe(no_mangle)]
pub extern "C" fn zektonk_queue_placed(
    book: &[u8],
    questions: &[u8],
    allowance: u64,
    out: &mut [u8],
    place: &mut [u64],
) -> u64
    ensures { ((result ≡ number_of (queue_of book.now questions.now allowance out.old)) × (out.new ≡ slice_of (queue_of book.now questions.now allowance out.old) out.old)) × (place.new ≡ place_written (place_of book.now result) place.old) }
{
    let answered = queue::answer(book, questions, allowance, out);
    store_place(place_in(book, answered), place);
    number_in(answered)
}

// As `zektonk_preview`; the offered block is a place of its own.
#[unsafe(no_mangle)]
pub extern "C" fn zektonk_preview_placed(
    book: &[u8],
    offered: &[u8],
    question: &[u8],
    out: &mut [u8],
    place: &mut [u64],
) -> u64
    ensures { Answers (preview_of book.now offered.now question.now (length out.old)) result out.old out.new × (place.new ≡ place_written (preview_place book.now result) place.old) }
{
    let answered = preview::answer(book, offered, question, out);
    store_place(preview_place_in(book, answered), place);
    number_in(answered)
}

// As `zektonk_distance`.
#[unsafe(no_mangle)]
pub extern "C" fn zektonk_distance_placed(
    book: &[u8],
    question: &[u8],
    out: &mut [u64],
    place: &mut [u64],
) -> u64
    ensures { ((result ≡ distance_number (distance_of book.now question.now)) × (out.new ≡ distance_written (distance_of book.now question.now) out.old)) × (place.new ≡ place_written (place_of book.now result) place.old) }
{
    let answered = give_distance(distance::answer(book, question), out);
    store_place(place_in(book, answered), place);
    number_in(answered)
}

// A refusal's sentence: 0, the sentence at the front of `text` and how many bytes it has; or 1 for a number of no refusal, then 10
// where fewer than 160 bytes are lent, and `text` and `bytes` as they were.
#[unsafe(no_mangle)]
pub extern "C" fn zektonk_sentence(
    number: u64,
    place: &[u64],
    text: &mut [u8],
    bytes: &mut u64,
) -> u64
    ensures { (result ≡ sentence_number (sentence_to number (place_from place.now) (length text.old))) × (text.new ≡ sentence_written (sentence_to number (place_from place.now) (length text.old)) text.old) × (bytes.new ≡ sentence_length (sentence_to number (place_from place.now) (length text.old)) bytes.old) }
{
    match sentences::write(number, place_from(place), text) {
        Ok(count) => {
            *bytes = count as u64;
            0
        }
        Err(refusal) => u64::from(refusal),
    }
}
