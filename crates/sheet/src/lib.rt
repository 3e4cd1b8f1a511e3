// The core as the desk calls it: a book, a question and an answer slice.
#![tactic(auto)]

ghost use Rattle.std.specs.Prelude.{◌≡◌, cond, true, List, ℕ, ◌≤◌, ◌<◌, ◌+◌, ◌*◌, length, Float, Ok};
ghost use Rattle.floats.specs.Vector.{places};
ghost use Rattle.floats.specs.Outcome.{ok, bind};
ghost use Rattle.outcome.specs.Refused.{outcome_of, outcome_by, number_in, number_by};
ghost use Rattle.counted.specs.Counted.{count_word};
ghost use Rattle.thermo_types.specs.Quantities.{positive_of};
ghost use Rattle.book.specs.Book.{rule_of};
ghost use Rattle.records.specs.Offered.{with_pair};
ghost use Rattle.thermo_models.specs.Domain.{pure_liquids_of};
ghost use Rattle.thermo_models.specs.Mixture.{mixture_with, mixture_of};
ghost use Rattle.question.specs.Inputs.{is_task, task_number, needs_temperature};
ghost use Rattle.replies.specs.Blocks.{answer_room, answer_bytes};
ghost use Rattle.sheet.specs.Tasks.{alone, saturated, task1, task6, task7, task7_counted, flash_task, task_at, task_under, task_of};
ghost use Rattle.sheet.specs.Ready.{pressures_in, flash_pressures, pressures_for, TableBy, TableOf, ReadiedBy, Readied};
ghost use Rattle.sheet.specs.Asked.{mixture_in, bytes_for, split};
ghost use Rattle.sheet.specs.Sheet.{answer_to, roomy, sheet_from, sheet_of, Answers};

use blocks::Rule;
use book::Head;
use liquid_stability::LiquidStabilityTrial;
use outcome::{Reason, Refusal};
use question::{Question, Task, read_question};
use rachford_rice::RachfordRice;
use replies::{
    ANSWER_ROOM, AnswerBlock, answer_words, excess_block, flash_block, rice_block,
    saturation_block, stability_block, trial_words,
};
use saturation::{ActivitySaturation, activity_bubble_pressure, activity_dew_pressure};
use saturation_temperature::{activity_bubble_temperature, activity_dew_temperature};
use thermo_models::Tabled;
use thermo_types::{Pressure, Temperature};

// ---- what is asked, and what is made ready for it

// The book of n solvents that is read, with a pair offered in the place of its own: with nothing offered, its own.
#[derive(Clone, Copy)]
struct Source<'a> {
    book: &'a [u8],
    offered: &'a [u8],
    n: usize,
}

// Tables, and the vapor pressures that the task reads. What the tables stand for goes beside it, as in crate saturation.
// Kept: no ghost field says that the tables stand for the mixture: `answer_ready` is asked with any, and only its ensures has that
// as a premise.
#[derive(Clone, Copy)]
struct Made<'a> {
    table: &'a [f64; 512],
    ps: &'a [f64; 8],
}

// A question that was read, and the rule of the blocks that answer it.
#[derive(Clone, Copy)]
struct Asked<'a> {
    rule: Rule,
    source: Source<'a>,
    q: &'a Question,
}

// A number that is no task's goes by 7: `make_ready` and `answer_ready` are public, and take any.
fn task_or_flash(number: u64) -> Task
    ensures { task_number result ≡ cond (is_task number) number 7 }
{
    Task::try_from(number).unwrap_or(Task::Flash)
}

// ---- what the tasks at a temperature share, whatever the feed

impl<'a> Source<'a> {
    // Of the pure liquids: 22, 25.
    #[tactic(auto, using(outcome::proofs::Exits::met), unfolding(crate::specs::Ready::pressures_in, floats::specs::Outcome::bind))]
    fn pure_pressures(self, t: Temperature) -> Result<[f64; 8], Refusal>
        ensures { outcome_of result ≡ pressures_in (pure_liquids_of self.entry.book.now (places self.entry.n) t.0) }
    {
        let pure = thermo_models::pure_liquids(self.book, self.n, t)?;
        Ok(pure.pressure)
    }

    // A flash's: 22, 23, 25.
    #[tactic(auto, unfolding(crate::specs::Ready::flash_pressures, floats::specs::Outcome::need))]
    fn flash_pressures(self, t: Temperature, p: Pressure) -> Result<[f64; 8], Refusal>
        ensures { (P : List Float) (copy : List ℕ) → outcome_of result ≡ flash_pressures (mixture_with self.entry.book.now P copy (places self.entry.n)) t.0 p.0 }
    {
        if !thermo_models::check_temperature(self.book, self.n, t) {
            return Err(Refusal::TemperatureOutside);
        }
        if !thermo_models::check_pressure(p.value()) {
            return Err(Refusal::PressureOutside);
        }
        self.pure_pressures(t)
    }

    // Those that the task reads.
    // Kept: a number, here and in `ready`: `Readied` speaks of one, and of those that are no task's. A match is the definition by
    // cases.
    fn pressures_for(self, task: u64, pressure: f64, t: Temperature) -> Result<[f64; 8], Refusal>
        ensures { (P : List Float) (copy : List ℕ) → outcome_of result ≡ pressures_for (mixture_with self.entry.book.now P copy (places self.entry.n)) task pressure t.0 }
    {
        match task_or_flash(task) {
            Task::Activity | Task::Stability => Ok([0.0; 8]),
            Task::BubblePressure | Task::DewPressure => self.pure_pressures(t),
            _ => {
                let p = Pressure::new(pressure)?;
                self.flash_pressures(t, p)
            }
        }
    }

    // The tables at t.
    fn tables_at(self, t: Temperature, table: &mut [f64; 512]) -> Tabled
        ensures { (result.t ≡ t) × TableOf (mixture_in self.entry) result table.new }
    {
        thermo_models::book_tables(self.book, self.offered, self.n, t, table)
    }

    // Makes ready for a task at a temperature (K), 7 at a pressure (Pa) too: the vapor pressures that it reads, then the
    // tables. What the tables stand for; or 13, 14, 22, 23, or 25 of a vapor pressure.
    fn ready(
        self,
        task: u64,
        temperature: f64,
        pressure: f64,
        table: &mut [f64; 512],
        ps: &mut [f64; 8],
    ) -> Result<Tabled, Refusal>
        ensures { Readied (mixture_in self.entry) task temperature pressure result table.new ps.new }
    {
        let t = Temperature::new(temperature)?;
        *ps = self.pressures_for(task, pressure, t)?;
        Ok(self.tables_at(t, table))
    }
}

// What the tasks at a temperature share for a book of n solvents, as `answer_ready` takes it: the tables and vapor pressures that
// the task reads. What the tables stand for; or 13, 14, 22, 23, or 25 of a vapor pressure.
// Kept: tables and pressures are the caller's memory, which batch keeps from feed to feed, here and in `ready`.
pub fn make_ready(
    book: &[u8],
    n: usize,
    task: u64,
    temperature: f64,
    pressure: f64,
    table: &mut [f64; 512],
    ps: &mut [f64; 8],
) -> Result<Tabled, Refusal>
    ensures { length table.old ≡ 512 → Readied (mixture_of book.now (places n)) task temperature pressure result table.new ps.new }
{
    let offered = b"";
    Source { book, offered, n }.ready(task, temperature, pressure, table, ps)
}

// ---- the tasks, each with its blocks at the front of the room for an answer

impl<'a> Asked<'a> {
    // By the rule of the book.
    fn of(source: Source<'a>, q: &'a Question) -> Asked<'a>
        ensures { result ≡ record { rule = rule_of source.entry.book.now; source = source.entry; q = q.entry } }
    {
        Asked {
            rule: book::rule_of(source.book),
            source,
            q,
        }
    }

    // An answer, and its trials in the blocks behind it, as many as word 12 says.
    fn write_answer(
        self,
        b: AnswerBlock,
        trials: &[LiquidStabilityTrial; 8],
        out: &mut [u8; ANSWER_ROOM],
    )
        requires { b.state.trials ≤ 8 }
        ensures { Answers (ok (answer_bytes self.entry.rule self.entry.q.now.task (record { block = b; trials = trials.now }))) 0 out.old out.new }
    {
        blocks::write_block(out, self.rule, &answer_words(self.q.task, b));
        for k in 0..b.state.trials as usize {
            blocks::write_at(out, k + 1, self.rule, &trial_words(trials[k]));
        }
    }

    // An answer without trials, by a rule.
    #[inline(always)]
    fn write_by(self, rule: Rule, b: AnswerBlock, out: &mut [u8; ANSWER_ROOM])
        requires { b.state.trials ≡ 0 }
        ensures { Answers (ok (answer_bytes rule self.entry.q.now.task (alone b))) 0 out.old out.new }
    {
        blocks::write_block(out, rule, &answer_words(self.q.task, b));
    }

    #[inline(never)]
    fn write_apart(self, b: AnswerBlock, out: &mut [u8; ANSWER_ROOM])
        requires { b.state.trials ≡ 0 }
        ensures { Answers (ok (answer_bytes self.entry.rule self.entry.q.now.task (alone b))) 0 out.old out.new }
    {
        self.write_by(self.rule, b, out);
    }

    // An answer without trials.
    // Kept: a match: where the rule is a constant, the words are stored and summed where they were made, and none goes by way of an
    // array. A split of two solvents takes 22 ns less.
    #[inline(always)]
    fn write_alone(self, b: AnswerBlock, out: &mut [u8; ANSWER_ROOM])
        requires { b.state.trials ≡ 0 }
        ensures { Answers (ok (answer_bytes self.entry.rule self.entry.q.now.task (alone b))) 0 out.old out.new }
    {
        match self.rule {
            Rule::Plain => self.write_by(Rule::Plain, b, out),
            Rule::Running => self.write_apart(b, out),
        }
    }

    // Task 1: 25 where g^E / RT isn't finite.
    fn activity<E: Reason>(
        self,
        made: Made,
        at: Tabled<E>,
        out: &mut [u8; ANSWER_ROOM],
    ) -> Result<(), E>
        ensures { TableBy E.said (mixture_in self.entry.source) at made.entry.table.now → Answers (bytes_for self.entry (task1 (mixture_in self.entry.source) self.entry.q.now at.t.0)) (number_by E.said result) out.old out.new }
    {
        let Source { book, offered, n } = self.source;
        let x = &self.q.fractions;
        let mut ln_gamma = [0.0; 8];
        let mut slopes = [0.0; 8];
        let e = thermo_models::excess(made.table, at, x, &mut ln_gamma, &mut slopes)?;
        if !floats::is_finite(e.reduced) {
            return Err(E::from(Refusal::ResultNotFinite));
        }
        let v = thermo_models::validity(book, offered, n, at.t, x);
        let b = excess_block(at.t.value(), e, v, ln_gamma, slopes);
        self.write_alone(b, out);
        Ok(())
    }

    // Tasks 2 to 5, from what their solver found.
    // Kept: two lines, as `split`: one function over the block's would need clauses that the block's can be called, what it gives
    // and that this has no trials; and these two still, for their five callers.
    fn saturated<E: Reason>(
        self,
        found: Result<ActivitySaturation, E>,
        out: &mut [u8; ANSWER_ROOM],
    ) -> Result<(), E>
        ensures { Answers (bytes_for self.entry (saturated (outcome_by E.said found))) (number_by E.said result) out.old out.new }
    {
        self.write_alone(saturation_block(found?), out);
        Ok(())
    }

    // Task 6.
    fn stability<E: Reason>(
        self,
        made: Made,
        at: Tabled<E>,
        out: &mut [u8; ANSWER_ROOM],
    ) -> Result<(), E>
        ensures { TableBy E.said (mixture_in self.entry.source) at made.entry.table.now → Answers (bytes_for self.entry (task6 (mixture_in self.entry.source) self.entry.q.now at.t.0)) (number_by E.said result) out.old out.new }
    {
        let q = self.q;
        let mut begun = 0;
        let found = liquid_stability::liquid_stability(
            made.table,
            at,
            q.options,
            &q.fractions,
            &mut begun,
        )?;
        let b = stability_block(found.stable, found.count);
        self.write_answer(b, &found.trials, out);
        Ok(())
    }

    // Task 7, from the vapor pressures that its T and p have. The evaluations that it began, with a refusal too, go into `begun`.
    fn flash<E: Reason>(
        self,
        made: Made,
        at: Tabled<E>,
        p: Pressure,
        begun: &mut u64,
        out: &mut [u8; ANSWER_ROOM],
    ) -> Result<(), E>
        ensures answers { TableBy E.said (mixture_in self.entry.source) at made.entry.table.now → flash_pressures (mixture_in self.entry.source) at.t.0 p.0 ≡ ok made.entry.ps.now → Answers (bytes_for self.entry (task7 (mixture_in self.entry.source) self.entry.q.now at.t.0 p.0)) (number_by E.said result) out.old out.new }
        ensures counted { TableBy E.said (mixture_in self.entry.source) at made.entry.table.now → flash_pressures (mixture_in self.entry.source) at.t.0 p.0 ≡ ok made.entry.ps.now → count_word begun.new ≡ count_word (task7_counted (mixture_in self.entry.source) self.entry.q.now at.t.0 p.0).begun }
        ensures long { length out.new ≡ answer_room }
    {
        let Made { table, ps } = made;
        let q = self.q;
        *begun = 0;
        let f = tp_flash::activity_tp_flash(table, at, q.options, &q.fractions, p, ps, begun)?;
        let b = flash_block(at.t.value(), p.value(), f, *begun);
        let trials = f.trials.unwrap_or(liquid_stability::no_trials());
        self.write_answer(b, &trials.trials, out);
        Ok(())
    }

    // Tasks 8 and 9, from what their solver found.
    #[inline(always)]
    fn split(
        self,
        found: Result<RachfordRice, Refusal>,
        out: &mut [u8; ANSWER_ROOM],
    ) -> Result<(), Refusal>
        ensures { Answers (bytes_for self.entry (split (outcome_of found))) (number_in result) out.old out.new }
    {
        let s = found?;
        self.write_alone(rice_block(s.outcome, s.liquid, s.vapor), out);
        Ok(())
    }

    // Tasks 1, 2, 3, 6 and 7.
    // Kept: a match, the definition by cases.
    fn task_at<E: Reason>(
        self,
        made: Made,
        at: Tabled<E>,
        out: &mut [u8; ANSWER_ROOM],
    ) -> Result<(), E>
        ensures answers { TableBy E.said (mixture_in self.entry.source) at made.entry.table.now → pressures_for (mixture_in self.entry.source) self.entry.q.now.task self.entry.q.now.pressure at.t.0 ≡ ok made.entry.ps.now → Answers (bytes_for self.entry (task_at (mixture_in self.entry.source) self.entry.q.now at.t.0)) (number_by E.said result) out.old out.new }
        ensures long { length out.new ≡ answer_room }
    {
        let Made { table, ps } = made;
        let q = self.q;
        match task_or_flash(q.task) {
            Task::Activity => self.activity(made, at, out),
            Task::BubblePressure => {
                self.saturated(activity_bubble_pressure(table, at, &q.fractions, ps), out)
            }
            Task::DewPressure => {
                let found = activity_dew_pressure(table, at, &q.fractions, ps, q.options);
                self.saturated(found, out)
            }
            Task::Stability => self.stability(made, at, out),
            _ => {
                let p = Pressure::new(q.pressure)?;
                let mut begun = 0;
                self.flash(made, at, p, &mut begun, out)
            }
        }
    }

    // Not inlined, nor is `at_pressure`: their tables would be room on the stack for tasks 8 and 9.
    #[inline(never)]
    fn at_temperature(self, out: &mut [u8; ANSWER_ROOM]) -> Result<(), Refusal>
        ensures { Answers (bytes_for self.entry (bind (positive_of self.entry.q.now.temperature 13) (task_at (mixture_in self.entry.source) self.entry.q.now))) (number_in result) out.old out.new }
    {
        let q = self.q;
        let mut table = [0.0; 512];
        let mut ps = [0.0; 8];
        let at = self
            .source
            .ready(q.task, q.temperature, q.pressure, &mut table, &mut ps)?;
        let made = Made {
            table: &table,
            ps: &ps,
        };
        self.task_at(made, at, out)
    }

    // Tasks 4 and 5.
    #[inline(never)]
    fn at_pressure(self, task: Task, out: &mut [u8; ANSWER_ROOM]) -> Result<(), Refusal>
        ensures { self.entry.q.now.task ≡ task_number task → Answers (bytes_for self.entry (bind (positive_of self.entry.q.now.pressure 14) (task_under (mixture_in self.entry.source) self.entry.q.now))) (number_in result) out.old out.new }
    {
        let Source { book, offered, n } = self.source;
        let q = self.q;
        let p = Pressure::new(q.pressure)?;
        let mut parameters = [0.0; 384];
        records::parameters(book, offered, n, &mut parameters);
        let (x, o) = (&q.fractions, q.options);
        // Kept: a match, since the contract of a closure for it would have six arguments, for one line.
        let found = match task {
            Task::BubbleTemperature => activity_bubble_temperature(book, &parameters, n, p, x, o),
            _ => activity_dew_temperature(book, &parameters, n, p, x, o),
        };
        self.saturated(found, out)
    }

    // Every task; a number that is no task's is refused with 12.
    // Kept: a match, the definition by cases.
    fn solve(self, out: &mut [u8; ANSWER_ROOM]) -> Result<(), Refusal>
        ensures answers { Answers (bytes_for self.entry (task_of (mixture_in self.entry.source) self.entry.q.now)) (number_in result) out.old out.new }
        ensures long { length out.new ≡ answer_room }
    {
        let q = self.q;
        let n = self.source.n;
        let limit = q.options.max_iterations;
        let task = Task::try_from(q.task)?;
        match task {
            Task::BubbleTemperature | Task::DewTemperature => self.at_pressure(task, out),
            Task::Split => {
                let found = rachford_rice::rachford_rice(&q.fractions, &q.ratios, n, limit);
                self.split(found, out)
            }
            Task::NegativeSplit => {
                let found = rachford_rice::rachford_rice_negative(
                    &q.fractions,
                    &q.ratios,
                    n,
                    limit,
                );
                self.split(found, out)
            }
            _ => self.at_temperature(out),
        }
    }
}

// ---- the call

// The answer to a question that was read, for a book of n solvents with a pair offered in the place of its own: 10, then the
// task's own numbers.
pub fn answer_offered(
    book: &[u8],
    offered: &[u8],
    n: usize,
    q: Question,
    out: &mut [u8],
) -> Result<(), Refusal>
    ensures answers { Answers (roomy (length out.old) (answer_to (with_pair (places n) book.now offered.now) (places n) q)) (number_in result) out.old out.new }
    ensures long { length out.new ≡ length out.old }
{
    let Some(room) = out.first_chunk_mut::<ANSWER_ROOM>() else {
        return Err(Refusal::AnswerShort);
    };
    let asked = Asked::of(Source { book, offered, n }, &q);
    asked.solve(room)
}

// The answer to a question that was read, for a book of n solvents with its own pairs: 10, then the task's own numbers.
pub fn answer_asked(book: &[u8], n: usize, q: Question, out: &mut [u8]) -> Result<(), Refusal>
    ensures answers { Answers (roomy (length out.old) (answer_to book.now (places n) q)) (number_in result) out.old out.new }
    ensures long { length out.new ≡ length out.old }
{
    answer_offered(book, b"", n, q, out)
}

// The answer to a question that was read, of a task at a temperature, from what was made ready for it: 10, then the task's own.
pub fn answer_ready<E: Reason>(
    book: &[u8],
    n: usize,
    made: Result<Tabled<E>, E>,
    table: &[f64; 512],
    ps: &[f64; 8],
    q: Question,
    out: &mut [u8],
) -> Result<(), E>
    ensures answers { needs_temperature q.task ≡ true → ReadiedBy E.said (mixture_of book.now (places n)) q.task q.temperature q.pressure made table.now ps.now → Answers (roomy (length out.old) (answer_to book.now (places n) q)) (number_by E.said result) out.old out.new }
    ensures long { length out.new ≡ length out.old }
{
    let Some(room) = out.first_chunk_mut::<ANSWER_ROOM>() else {
        return Err(E::from(Refusal::AnswerShort));
    };
    let at = made?;
    let offered = b"";
    let asked = Asked::of(Source { book, offered, n }, &q);
    asked.task_at(Made { table, ps }, at, room)
}

// The answer to a flash that was read, from what was made ready for it at its T and p, in a slice with the room for an answer (10).
// The evaluations that it began, with a refusal too, go into `begun`.
pub fn flash_ready(
    book: &[u8],
    n: usize,
    at: Tabled,
    table: &[f64; 512],
    ps: &[f64; 8],
    q: &Question,
    begun: &mut u64,
    out: &mut [u8],
) -> Result<(), Refusal>
    ensures answers { q.now.task ≡ 7 → Readied (mixture_of book.now (places n)) 7 q.now.temperature q.now.pressure (Ok at) table.now ps.now → Answers (roomy (length out.old) (answer_to book.now (places n) q.now)) (number_in result) out.old out.new }
    ensures counted { answer_room ≤ length out.old → Readied (mixture_of book.now (places n)) 7 q.now.temperature q.now.pressure (Ok at) table.now ps.now → count_word begun.new ≡ count_word (flash_task (mixture_of book.now (places n)) q.now).begun }
    ensures long { length out.new ≡ length out.old }
{
    let Some(room) = out.first_chunk_mut::<ANSWER_ROOM>() else {
        return Err(Refusal::AnswerShort);
    };
    let p = Pressure::new(q.pressure)?;
    let offered = b"";
    let asked = Asked::of(Source { book, offered, n }, q);
    asked.flash(Made { table, ps }, at, p, begun, room)
}

// The answer to a question, for a book that was opened: 10, then 11 to 21, then the task's own.
pub fn answer_opened(
    book: &[u8],
    head: Head,
    question: &[u8],
    out: &mut [u8],
) -> Result<(), Refusal>
    ensures { Answers (sheet_from book.now head.version (places head.n) question.now (length out.old)) (number_in result) out.old out.new }
{
    let Some(room) = out.first_chunk_mut::<ANSWER_ROOM>() else {
        return Err(Refusal::AnswerShort);
    };
    let q = read_question(book::rule_of(book), question, head.version, book, head.n)?;
    answer_asked(book, head.n, q, room)
}

// The answer's blocks at the front of the slice; or the question that was answered no, and the slice as it was.
pub fn answer(book: &[u8], question: &[u8], out: &mut [u8]) -> Result<(), Refusal>
    ensures { Answers (sheet_of book.now question.now (length out.old)) (number_in result) out.old out.new }
{
    let head = book::open_book(book)?;
    answer_opened(book, head, question, out)
}
