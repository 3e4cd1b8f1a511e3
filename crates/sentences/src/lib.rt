// A refusal in words, composed of fixed phrases.
#![tactic(auto)]

ghost use Rattle.std.specs.Prelude.{◌≡◌, ◌+◌, ◌≤◌, ◌&&◌, nat_le, length, codes};
ghost use Rattle.std.specs.Fmt.{decimal};
ghost use Rattle.floats.specs.Outcome.{bind, ok};
ghost use Rattle.outcome.specs.Refused.{outcome_of};
ghost use Rattle.blocks.specs.Bytes.{put};
ghost use Rattle.book.specs.Place.{can_have, put_to_blocks, put_to_offered};
ghost use Rattle.sentences.specs.Sentence.{matter, where_of, sentence_of, kept_place, sentence_to, sentence_written};
ghost use Rattle.sentences.specs.Laws.{Words, Refused};

use book::Place;
use outcome::Refusal;

// Bytes that are always enough.
pub const SENTENCE_ROOM: usize = 160;

// What a number is about.
#[tactic(auto, unfolding(crate::specs::Sentence::matters))]
fn matter(number: u64) -> &'static str
    ensures { result.now ≡ matter number }
{
    match number {
        1 =>
            "there are no whole blocks of 512 bytes where a book, one offered block or an answer is due",
        2 => "a check word is wrong: words were changed or, in a book of version 3, exchanged",
        3 =>
            "the head of the book is wrong: kind 1, 1 to 8 solvents, and as many blocks as these need",
        4 => "a solvent's kind, place, CAS number or count of terms is wrong",
        5 =>
            "a solvent's correlation is not finite, not 0 < low <= high < t_r, or has a reducing value not above 0",
        6 => "two solvents of the book have one CAS number",
        7 => "a pair's kind, its two places or a flag is wrong",
        8 => "a pair has a number that is not finite",
        9 => "a pair's two alphas are not equal",
        10 =>
            "too little room is lent: 4,608 bytes for each answer, 22 words for the floor, 160 bytes for a sentence",
        11 => "the question is not one block of 512 bytes with kind 8 and the right check word",
        12 => "the task is not one that this call answers",
        13 => "the temperature is not finite and positive",
        14 => "the pressure is not finite and positive",
        15 => "a fraction or a K value is not finite",
        16 => "a fraction is negative",
        17 => "a K value is not positive",
        18 => "the fractions don't sum to 1 within 1e-10",
        19 => "a tolerance, the trial threshold or the temperature bracket is out of its range",
        20 => "an iteration limit is 0",
        21 => "an iteration limit is above 1,000,000",
        22 =>
            "a temperature lies outside 273.16 to 450 K or the range of a solvent of the book, in the drum or not",
        23 => "a pressure, given or found, lies outside 100 to 500,000 Pa",
        24 => "an NRTL alpha is not positive at this temperature",
        25 => "a result is not finite, or not positive where it must be",
        26 => "the bracket holds no root: the point lies outside it",
        27 => "not converged within the iteration limit, or the bracket collapsed",
        28 => "the K values of the solvents present lie on one side of 1",
        29 =>
            "the liquid didn't pass its trials: it splits in two liquids, which this core doesn't calculate",
        30 => "the split's vapor fraction lies outside (0, 1)",
        31 => "there are not 1 to 64 whole drums to pool",
        32 => "the drums hold nothing at all, or more than 2^53 micromoles",
        33 => "there are not 1 to 64 whole feeds in one call",
        34 =>
            "a composition inside the calculation, or a drum by mass, can't be brought to fractions that sum to 1",
        35 => "a solvent's molar mass is not finite and positive",
        36 =>
            "the fractions are by neither moles nor mass, or by mass with no molar masses in the book or with drums pooled",
        37 => "the book's model is neither NRTL nor, from version 2 on, Wilson",
        38 => "the book's version is none of 1 to 3",
        39 => "there are not 1 to 64 whole questions in the queue, or one of them is not a flash",
        _ => "",
    }
}

// A part of a sentence behind its first `at` bytes: how many it has then.
fn add(text: &mut [u8], at: usize, part: &str) -> usize
    requires { at + length part.now ≤ length text.old }
    ensures { (result ≡ at + length part.now) × (text.new ≡ put text.old at part.now) }
{
    let end = at + part.len();
    text[at..end].copy_from_slice(part.as_bytes());
    end
}

// A whole number in decimal digits.
fn add_number(text: &mut [u8], at: usize, number: u64) -> usize
    requires { at + length (decimal number) ≤ length text.old }
    ensures { (result ≡ at + length (decimal number)) × (text.new ≡ put text.old at (decimal number)) }
{
    let mut digits = itoa::Buffer::new();
    add(text, at, digits.format(number))
}

// Where it was said no.
#[tactic(auto, unfolding(crate::specs::Sentence::where_of))]
fn add_place(text: &mut [u8], at: usize, place: Place) -> usize
    requires { at + length (where_of place) ≤ length text.old }
    ensures { (result ≡ at + length (where_of place)) × (text.new ≡ put text.old at (where_of place)) }
{
    match place {
        Place::Nowhere => at,
        Place::Block(k) => {
            let at = add(text, at, " (block ");
            let at = add_number(text, at, k);
            add(text, at, ")")
        }
        Place::Pair(i, j) => {
            let at = add(text, at, " (solvents ");
            let at = add_number(text, at, i);
            let at = add(text, at, " and ");
            let at = add_number(text, at, j);
            add(text, at, ")")
        }
        Place::Offered => add(text, at, " (the offered block)"),
    }
}

// Which places a number can have. A proof knows that a place's words are of 64 bits only where it is taken apart, as here.
#[tactic(auto, unfolding(book::specs::Place::can_have))]
fn can_have(number: u64, place: Place) -> bool
    ensures answer { result ≡ can_have number place }
    ensures words { Words place }
{
    match place {
        Place::Nowhere => true,
        Place::Block(_) => matches!(number, 2 | 4 | 5 | 7 | 8 | 9),
        Place::Pair(_, _) => number == 6,
        Place::Offered => matches!(number, 1 | 2 | 7 | 8 | 9),
    }
}

fn kept_place(number: u64, place: Place) -> Place
    ensures kept { result ≡ kept_place number place }
    ensures words { Words result }
{
    if can_have(number, place) {
        place
    } else {
        Place::Nowhere
    }
}

// The sentence of a number and a place that it can have, at the front: how many bytes it has.
fn compose(text: &mut [u8; SENTENCE_ROOM], number: u64, place: Place) -> usize
    requires { Refused number place }
    ensures { (result ≡ length (sentence_of number place)) × (text.new ≡ put text.old 0 (sentence_of number place)) }
{
    let at = add_number(text, 0, number);
    let at = add(text, at, ": ");
    let at = add(text, at, matter(number));
    let at = add_place(text, at, place);
    add(text, at, ".")
}

// The numbers of refusals.
fn is_refusal(number: u64) -> bool
    ensures { result ≡ (nat_le 1 number && nat_le number 39) }
{
    (1..=39).contains(&number)
}

// A refusal's sentence at the front of a slice: how many bytes it has; or 1 for a number of no refusal, then 10 for fewer than 160
// bytes, and the slice as it was. A place that the number can't have is left out.
pub fn write(number: u64, place: Place, text: &mut [u8]) -> Result<usize, Refusal>
    ensures { (outcome_of result ≡ bind (sentence_to number place (length text.old)) (λ bs. ok (length bs))) × (text.new ≡ sentence_written (sentence_to number place (length text.old)) text.old) }
{
    if !is_refusal(number) {
        return Err(Refusal::BookLength);
    }
    let Some(front) = text.first_chunk_mut::<SENTENCE_ROOM>() else {
        return Err(Refusal::AnswerShort);
    };
    Ok(compose(front, number, kept_place(number, place)))
}
