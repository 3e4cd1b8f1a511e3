// Trying a pair before entering it: the call on a book, one offered pair block, a question and an answer slice. The book is
// only read, and no copy of it is made.
#![tactic(auto)]

ghost use Rattle.std.specs.Prelude.{length};
ghost use Rattle.outcome.specs.Refused.{number_in};
ghost use Rattle.sheet.specs.Sheet.{Answers};
ghost use Rattle.preview.specs.Preview.{preview_of};

use outcome::Refusal;
use question::read_question;
use replies::ANSWER_ROOM;

// The answer's blocks at the front of the slice; or the question that was answered no, and the slice as it was. The questions
// in their order: the book's, the offered pair's, 10, 11 to 21, the task's own with that pair.
pub fn answer(book: &[u8], offered: &[u8], question: &[u8], out: &mut [u8]) -> Result<(), Refusal>
    ensures { Answers (preview_of book.now offered.now question.now (length out.old)) (number_in result) out.old out.new }
{
    let head = book::open_book(book)?;
    let rule = book::rule_of(book);
    book::open_offered(rule, head, offered)?;
    let Some(room) = out.first_chunk_mut::<ANSWER_ROOM>() else {
        return Err(Refusal::AnswerShort);
    };
    let q = read_question(rule, question, head.version, book, head.n)?;
    sheet::answer_offered(book, offered, head.n, q, room)
}
