// A shift's questions under one allowance: the call on a book and up to 64 flash questions, each put where what is left of the
// allowance of activity evaluations holds all that it could begin.
#![tactic(auto)]

ghost use Rattle.std.specs.Prelude.{◌≡◌, true, ◌&&◌, eqb, ◌≤◌, ◌*◌, ◌-◌, ◌/◌, ◌%◌, length, Ok};
ghost use Rattle.floats.specs.Fold.{all_to};
ghost use Rattle.floats.specs.Vector.{places};
ghost use Rattle.floats.specs.Outcome.{ok};
ghost use Rattle.outcome.specs.Refused.{outcome_of, number_in};
ghost use Rattle.blocks.specs.Words.{block};
ghost use Rattle.blocks.specs.Bytes.{put};
ghost use Rattle.book.specs.Book.{rule_of};
ghost use Rattle.thermo_models.specs.Mixture.{mixture_of};
ghost use Rattle.tp_flash.specs.Counted.{most_evaluations};
ghost use Rattle.question.specs.Inputs.{within};
ghost use Rattle.question.specs.Asked.{task_in};
ghost use Rattle.replies.specs.Blocks.{answer_room};
ghost use Rattle.sheet.specs.Ready.{Readied};
ghost use Rattle.sheet.specs.Sheet.{number_of, slice_of, question_to};
ghost use Rattle.queue.specs.Queue.{question_count, is_flash, questions_right, takes, queue_reply, parts_to, queue_of};

use blocks::Rule;
use book::Head;
use outcome::Refusal;
use question::{Question, Task, read_question, read_task};
use replies::{ANSWER_ROOM, write_put_off, write_refusal};
use thermo_models::Tabled;
use thermo_types::ActivityOptions;

// Task 7, or refused with 11.
#[tactic(auto, using(crate::proofs::Calls::flash_read, crate::proofs::Calls::flash_unread))]
fn is_flash(rule: Rule, question: &[u8]) -> bool
    ensures { result ≡ is_flash (task_in rule question.now) }
{
    match read_task(rule, question) {
        Ok(task) => matches!(task, Task::Flash),
        Err(refusal) => matches!(refusal, Refusal::QuestionBlock),
    }
}

// 1 to 64 whole questions.
fn count_right(questions: &[u8]) -> bool
    ensures { result ≡ (eqb (length questions.now % 512) 0 && within 1 64 (question_count questions.now)) }
{
    questions.len() % 512 == 0 && matches!(questions.len() / 512, 1..=64)
}

fn all_flashes(rule: Rule, questions: &[u8]) -> bool
    ensures { result ≡ all_to (λ k. is_flash (task_in rule (block questions.now k))) (question_count questions.now) }
{
    (0..questions.len() / 512).all(|k| is_flash(rule, blocks::block(questions, k)))
}

// 39
fn questions_right(rule: Rule, questions: &[u8]) -> bool
    ensures { result ≡ questions_right rule questions.now }
{
    count_right(questions) && all_flashes(rule, questions)
}

// (m + 2) M + 4, m the solvents present in the feed z.
fn most_evaluations(n: usize, o: ActivityOptions, z: &[f64; 8]) -> u64
    requires { o.max_iterations ≤ 1000000 }
    ensures { result ≡ most_evaluations (places n) o z.now }
{
    let present = liquid_stability::present_count(z, n);
    (present as u64 + 2) * o.max_iterations + 4
}

// A shift's book, which was opened.
#[derive(Clone, Copy)]
struct Shift<'a> {
    rule: Rule,
    book: &'a [u8],
    head: Head,
    ghost ruled: { rule ≡ rule_of book.now },
}

impl<'a> Shift<'a> {
    // A flash that fits is run, and its real count is taken off, that of a refused one too; what is left.
    fn run(
        self,
        question: &[u8],
        q: &Question,
        at: Tabled,
        table: &[f64; 512],
        ps: &[f64; 8],
        left: u64,
        out: &mut [u8],
    ) -> u64
        requires { (answer_room ≤ length out.old) × (q.now.task ≡ 7) × (question_to self.book.now self.head.version (places self.head.n) question.now ≡ ok q.now) × (most_evaluations (places self.head.n) q.now.options q.now.fractions ≤ left) × Readied (mixture_of self.book.now (places self.head.n)) 7 q.now.temperature q.now.pressure (Ok at) table.now ps.now }
        ensures left { let s = self.entry in result ≡ left - takes s.book.now s.head.version (places s.head.n) question.now left }
        ensures part { let s = self.entry in out.new ≡ put out.old 0 (queue_reply s.book.now s.head.version (places s.head.n) question.now left) }
    {
        let mut begun = 0;
        let ran = sheet::flash_ready(self.book, self.head.n, at, table, ps, q, &mut begun, out);
        if let Err(refusal) = ran {
            write_refusal(self.rule, question, u64::from(refusal), out);
        }
        // Kept: by reference: of what is read through one a proof knows that it is a word.
        let taken = &begun;
        left - *taken
    }

    // A flash question that was read: refused before any evaluation, run, or put off.
    fn put_asked(self, question: &[u8], q: &Question, left: u64, out: &mut [u8]) -> u64
        requires { (answer_room ≤ length out.old) × (q.now.task ≡ 7) × (question_to self.book.now self.head.version (places self.head.n) question.now ≡ ok q.now) × (q.now.options.max_iterations ≤ 1000000) }
        ensures left { let s = self.entry in result ≡ left - takes s.book.now s.head.version (places s.head.n) question.now left }
        ensures part { let s = self.entry in out.new ≡ put out.old 0 (queue_reply s.book.now s.head.version (places s.head.n) question.now left) }
    {
        let n = self.head.n;
        let mut table = [0.0; 512];
        let mut ps = [0.0; 8];
        let made = sheet::make_ready(
            self.book,
            n,
            7,
            q.temperature,
            q.pressure,
            &mut table,
            &mut ps,
        );
        match made {
            Err(refusal) => {
                write_refusal(self.rule, question, u64::from(refusal), out);
                left
            }
            Ok(at) => {
                if left < most_evaluations(n, q.options, &q.fractions) {
                    write_put_off(self.rule, out);
                    return left;
                }
                self.run(question, q, at, &table, &ps, left, out)
            }
        }
    }

    // One question at the front of its part of the slice; what is left for the next.
    fn put_question(self, question: &[u8], left: u64, out: &mut [u8]) -> u64
        requires { (answer_room ≤ length out.old) × (is_flash (task_in self.rule question.now) ≡ true) }
        ensures left { let s = self.entry in result ≡ left - takes s.book.now s.head.version (places s.head.n) question.now left }
        ensures part { let s = self.entry in out.new ≡ put out.old 0 (queue_reply s.book.now s.head.version (places s.head.n) question.now left) }
    {
        match read_question(
            self.rule,
            question,
            self.head.version,
            self.book,
            self.head.n,
        ) {
            Err(refusal) => {
                write_refusal(self.rule, question, u64::from(refusal), out);
                left
            }
            Ok(q) => self.put_asked(question, &q, left, out),
        }
    }

    fn put_questions(self, questions: &[u8], allowance: u64, out: &mut [u8])
        requires { (answer_room * (length questions.now / 512) ≤ length out.old) × (questions_right self.rule questions.now ≡ true) }
        ensures { let s = self.entry in out.new ≡ parts_to s.book.now s.head.version (places s.head.n) questions.now allowance out.old (length questions.now / 512) }
    {
        let mut left = allowance;
        for k in 0..questions.len() / 512 {
            let part = &mut out[ANSWER_ROOM * k..];
            left = self.put_question(blocks::block(questions, k), left, part);
        }
    }
}

// Each question's blocks at the front of its own 4,608 bytes of the slice: an answer's, a refusal's, or the one of a question that
// is put off; or the question that was answered no, and the slice as it was.
pub fn answer(book: &[u8], questions: &[u8], allowance: u64, out: &mut [u8]) -> Result<(), Refusal>
    ensures { (number_in result ≡ number_of (queue_of book.now questions.now allowance out.old)) × (out.new ≡ slice_of (queue_of book.now questions.now allowance out.old) out.old) }
{
    let head = book::open_book(book)?;
    let rule = book::rule_of(book);
    if !questions_right(rule, questions) {
        return Err(Refusal::QueueQuestions);
    }
    let count = questions.len() / 512;
    if out.len() < ANSWER_ROOM * count {
        return Err(Refusal::AnswerShort);
    }
    let shift = Shift { rule, book, head };
    shift.put_questions(questions, allowance, out);
    Ok(())
}
