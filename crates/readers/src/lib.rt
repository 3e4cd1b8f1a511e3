// Readers of an answer slice: the floor sheet, 22 words by value, and the lab sheet, the answer and its trials as a part
// of the caller's own slice. Checks are not tested, and what stands behind is not read.
#![tactic(auto)]

ghost use Rattle.std.specs.Prelude.{◌≡◌, ◌≤◌, ◌<◌, length};
ghost use Rattle.outcome.specs.Refused.{outcome_of, number_in};
ghost use Rattle.readers.specs.Readers.{trials_right, part_of, floor_place, shown_of, floor_words, floor_of, floor_to, Fills, lab_of, part_in};

use blocks::word;
use outcome::Refusal;

// Are blocks 1 to n of kind 10?
fn trials_right(s: &[u8], n: usize) -> bool
    ensures { result ≡ trials_right s.now n }
{
    for k in 0..n {
        if word(blocks::block(s, 1 + k), 0) != 10 {
            return false;
        }
    }
    true
}

// How many bytes of a slice are an answer and its trials.
fn find_part(s: &[u8]) -> Result<usize, Refusal>
    ensures { outcome_of result ≡ part_of s.now }
{
    if word(s, 0) != 9 {
        return Err(Refusal::BookLength);
    }
    let trials = word(s, 12);
    if 8 < trials {
        return Err(Refusal::BookLength);
    }
    let n = trials as usize;
    let bytes = 512 * (1 + n);
    if s.len() < bytes {
        return Err(Refusal::BookLength);
    }
    if !trials_right(s, n) {
        return Err(Refusal::BookLength);
    }
    Ok(bytes)
}

// The word of an answer at place i of the floor's: 1 to 5, 11, 14 to 29.
#[tactic(auto, unfolding(crate::specs::Readers::floor_place))]
fn floor_place(i: usize) -> usize
    requires { i < 22 }
    ensures { result ≡ floor_place i }
{
    match i {
        0..5 => 1 + i,
        5 => 11,
        _ => 8 + i,
    }
}

// Task 1 shows the first five.
fn shown_of(task: u64) -> usize
    ensures { (result ≡ shown_of task) × (result ≤ 22) }
{
    if task == 1 { 5 } else { 22 }
}

fn floor_words(s: &[u8]) -> [u64; 22]
    ensures { result ≡ floor_words s.now }
{
    let shown = shown_of(word(s, 1));
    let mut ws = [0u64; 22];
    for i in 0..shown {
        ws[i] = word(s, floor_place(i));
    }
    ws
}

// What the floor is shown of an answer slice; refused with 1 where it doesn't begin with an answer and its trials.
pub fn floor(answer: &[u8]) -> Result<[u64; 22], Refusal>
    ensures { outcome_of result ≡ floor_of answer.now }
{
    find_part(answer)?;
    Ok(floor_words(answer))
}

// The answer and its trials, as a part of the caller's own slice; refused with 1 where it doesn't begin with these.
pub fn lab(answer: &[u8]) -> Result<&[u8], Refusal>
    ensures { part_in result ≡ lab_of answer.now }
{
    let bytes = find_part(answer)?;
    Ok(&answer[..bytes])
}

// The floor's words at the front of a slice of 22 words or more (10); refused, the slice is as it was.
pub fn write_floor(answer: &[u8], out: &mut [u64]) -> Result<(), Refusal>
    ensures { Fills (floor_to answer.now (length out.old)) (number_in result) out.old out.new }
{
    let words = floor(answer)?;
    if out.len() < 22 {
        return Err(Refusal::AnswerShort);
    }
    out[..22].copy_from_slice(&words);
    Ok(())
}
