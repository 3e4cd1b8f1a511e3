// Many feeds at one temperature: the call on a book, a question and up to 64 feeds. The opened book, the tables and the
// vapor pressures are worked out once, when a feed first needs them.
#![tactic(auto)]

ghost use Rattle.std.specs.Prelude.{◌≡◌, ◌≤◌, ◌*◌, length};
ghost use Rattle.floats.specs.Small.{float};
ghost use Rattle.floats.specs.Vector.{places};
ghost use Rattle.floats.specs.Outcome.{ok, bind};
ghost use Rattle.outcome.specs.Refused.{outcome_of, number_in};
ghost use Rattle.blocks.specs.Words.{word};
ghost use Rattle.thermo_models.specs.Mixture.{mixture_of};
ghost use Rattle.replies.specs.Blocks.{answer_room};
ghost use Rattle.sheet.specs.Ready.{Readied};
ghost use Rattle.sheet.specs.Sheet.{Answers, number_of, slice_of};
ghost use Rattle.batch.specs.Feeds.{feed_count, feeds_right, task_among, feed_to, parts_to, feeds_of, Keeps};

use blocks::word;
use book::{Head, float_at};
use outcome::Refusal;
use question::{floats_from, read_rest, read_task};
use replies::ANSWER_ROOM;
use thermo_models::Tabled;

// 33
// Kept: `pool::drums_right` has this body for another question. Shared it is a public function more, with a definition beside
// the two that 31 and 33 go by; and 65 feeds, or a feed cut short, could no longer be wrong without the drums.
#[tactic(auto, unfolding(crate::specs::Feeds::feeds_right))]
fn feeds_right(feeds: &[u8]) -> bool
    ensures { result ≡ feeds_right feeds.now }
{
    feeds.len() % 64 == 0 && matches!(feeds.len() / 64, 1..=64)
}

// What is kept from feed to feed: what was made ready, once a feed needed it.
// Kept: `table` and `ps` beside the option: they are the fixed memory that `make_ready` is lent to fill, and not its result.
#[derive(Clone, Copy)]
struct Kept {
    made: Option<Result<Tabled, Refusal>>,
    table: [f64; 512],
    ps: [f64; 8],
}

// A question to a book that was opened.
#[derive(Clone, Copy)]
struct Call<'a> {
    book: &'a [u8],
    head: Head,
    question: &'a [u8],
}

impl<'a> Call<'a> {
    // 11, 12 and 36, which are the same for every feed.
    #[tactic(auto, using(outcome::proofs::Exits::met), unfolding(crate::specs::Feeds::task_among, floats::specs::Outcome::bind, floats::specs::Outcome::need))]
    fn check_task(self) -> Result<(), Refusal>
        ensures { outcome_of result ≡ bind (task_among self.entry.book.now self.entry.head.version self.entry.question.now) (λ task. ok tt) }
    {
        // Kept: the task's number again below: a method of Task that says the same would be public too, for this one call.
        let task = read_task(book::rule_of(self.book), self.question)?;
        if !question::needs_temperature(u64::from(task)) {
            return Err(Refusal::Task);
        }
        if !question::kind_right(self.head.version, self.question) {
            return Err(Refusal::FeedKind);
        }
        Ok(())
    }

    fn kept_or_made(self, kept: &mut Kept) -> Result<Tabled, Refusal>
        ensures { Keeps (mixture_of self.entry.book.now (places self.entry.head.n)) self.entry.question.now kept.old.made kept.old.table kept.old.ps → Readied (mixture_of self.entry.book.now (places self.entry.head.n)) (word self.entry.question.now 1) (float (word self.entry.question.now) 2) (float (word self.entry.question.now) 3) result kept.new.table kept.new.ps }
    {
        match kept.made {
            Some(made) => made,
            None => sheet::make_ready(
                self.book,
                self.head.n,
                word(self.question, 1),
                float_at(self.question, 2),
                float_at(self.question, 3),
                &mut kept.table,
                &mut kept.ps,
            ),
        }
    }

    // The feed x: its answer's blocks at the front of the slice, and what is kept for the next feed.
    // Kept: a slice, of a length that is asked for: past the branch of a refusal a proof knows of the array that `first_chunk_mut`
    // lends of a part its length alone, and not its bytes.
    fn answer_feed(
        self,
        among: Result<(), Refusal>,
        x: &[f64; 8],
        kept: &mut Kept,
        out: &mut [u8],
    ) -> Result<(), Refusal>
        requires { (answer_room ≤ length out.old) × (outcome_of among ≡ bind (task_among self.book.now self.head.version self.question.now) (λ task. ok tt)) × Keeps (mixture_of self.book.now (places self.head.n)) self.question.now kept.old.made kept.old.table kept.old.ps }
        ensures keeps { Keeps (mixture_of self.entry.book.now (places self.entry.head.n)) self.entry.question.now kept.new.made kept.new.table kept.new.ps }
        ensures answers { Answers (feed_to self.entry.book.now self.entry.head.version (places self.entry.head.n) self.entry.question.now x.now) (number_in result) out.old out.new }
    {
        among?;
        let n = self.head.n;
        let q = read_rest(self.question, self.book, n, x)?;
        let made = self.kept_or_made(kept);
        kept.made = Some(made);
        sheet::answer_ready(self.book, n, made, &kept.table, &kept.ps, q, out)
    }

    // A refusal is a block too. What one feed needs is kept for the others: the tables and vapor pressures are worked out once.
    #[tactic(auto, unfolding(crate::specs::Feeds::parts_to, floats::specs::Fold::fold_to))]
    fn answer_feeds(self, feeds: &[u8], out: &mut [u8])
        requires { (feed_count feeds.now ≤ 64) × (answer_room * feed_count feeds.now ≤ length out.old) }
        ensures { out.new ≡ parts_to self.entry.book.now self.entry.head.version (places self.entry.head.n) self.entry.question.now feeds.now out.old (feed_count feeds.now) }
    {
        let rule = book::rule_of(self.book);
        let among = self.check_task();
        let mut kept = Kept {
            made: None,
            table: [0.0; 512],
            ps: [0.0; 8],
        };
        // Kept: parts by their index, since of a slice that was lent by `as_chunks_mut` a proof knows no bytes afterwards.
        for k in 0..feeds.len() / 64 {
            let x = floats_from(feeds, 8 * k, self.head.n);
            let part = &mut out[ANSWER_ROOM * k..];
            if let Err(refusal) = self.answer_feed(among, &x, &mut kept, part) {
                replies::write_refusal(rule, self.question, u64::from(refusal), part);
            }
        }
    }
}

// Each feed's blocks at the front of its own 4,608 bytes of the slice, an answer's or a refusal's; or the question that was
// answered no, and the slice as it was.
pub fn answer(book: &[u8], question: &[u8], feeds: &[u8], out: &mut [u8]) -> Result<(), Refusal>
    ensures { (number_in result ≡ number_of (feeds_of book.now question.now feeds.now out.old)) × (out.new ≡ slice_of (feeds_of book.now question.now feeds.now out.old) out.old) }
{
    let head = book::open_book(book)?;
    if !feeds_right(feeds) {
        return Err(Refusal::FeedsLength);
    }
    let count = feeds.len() / 64;
    if out.len() < ANSWER_ROOM * count {
        return Err(Refusal::AnswerShort);
    }
    let call = Call {
        book,
        head,
        question,
    };
    call.answer_feeds(feeds, out);
    Ok(())
}
