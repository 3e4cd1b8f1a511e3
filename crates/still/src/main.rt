// Reads book.bin and a question on standard input, and writes the answer's blocks, or one block with the refusal's number and, to
// standard error, its sentence.
#![tactic(auto)]

ghost use Rattle.std.specs.Prelude.{◌≡◌, MatchOption};
ghost use Rattle.outcome.specs.Refused.{number};
ghost use Rattle.still.specs.Sent.{Sent, Reasoned, sheet_number};

use outcome::Refusal;
use replies::ANSWER_ROOM;
use sentences::SENTENCE_ROOM;

// One block more than any book has, and one byte more than a question: what is longer shows.
const BOOK_BYTES: usize = 19456;

const QUESTION_BYTES: usize = 513;

// The reply to the bytes that were read, at the front of `out`: how many bytes it has, and the refusal that it says.
fn reply(book: &[u8], question: &[u8], out: &mut [u8; ANSWER_ROOM]) -> (usize, Option<Refusal>)
    ensures sent { Sent book.now question.now result.0 out.new }
    ensures refused { MatchOption result.1 (sheet_number book.now question.now ≡ 0) (λ refusal. sheet_number book.now question.now ≡ number refusal) }
{
    match sheet::answer(book, question, out) {
        Ok(()) => (replies::answer_length(out), None),
        Err(refusal) => {
            replies::write_refusal(book::rule_of(book), question, u64::from(refusal), out);
            (512, Some(refusal))
        }
    }
}

// The sentence of a refusal with its place in the book, at the front of `text`: how many bytes it has.
fn reason(book: &[u8], refusal: Refusal, text: &mut [u8; SENTENCE_ROOM]) -> usize
    ensures { Reasoned book.now (number refusal) result text.new }
{
    let place = book::place_of(book, refusal);
    match sentences::write(u64::from(refusal), place, text) {
        Ok(n) => n,
        Err(_) => 0,
    }
}

// The blocks, then a refusal's sentence as a line of `errors`. Whether anyone takes what is written changes nothing.
fn respond(output: &impl Print, errors: &impl Print, book: &[u8], question: &[u8]) {
    let mut out = [0u8; ANSWER_ROOM];
    let (n, refused) = reply(book, question, &mut out);
    let _ = output.write_all(&out[..n]);
    if let Some(refusal) = refused {
        let mut text = [0u8; SENTENCE_ROOM];
        let n = reason(book, refusal, &mut text);
        let _ = errors.write_all(&text[..n]);
        let _ = errors.write_all(b"\n");
    }
}

fn main(rt: HostRuntime) {
    let mut book = [0u8; BOOK_BYTES];
    let n = reading::read_path(&rt, "book.bin", &mut book);
    let mut question = [0u8; QUESTION_BYTES];
    let m = reading::read_full(&mut rt.stdin(), &mut question);
    respond(&rt.stdout(), &rt.stderr(), &book[..n], &question[..m]);
}
