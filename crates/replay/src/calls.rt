// The core's functions on the words of a stored line.
use book::Place;
use distance::Distance;
use outcome::{Refusal, number_in};
use rachford_rice::{RachfordRice, RachfordRiceOutcome};
use replies::ANSWER_ROOM;

// A stored call: the inputs that are not taken yet, the results that are not given yet, and whether one that was given differs.
#[derive(Drop)]
pub(crate) struct Stored<'a> {
    pub inputs: &'a [u64],
    pub results: &'a [u64],
    pub differs: bool,
}

// Which zero max and min give from +0 and -0 is open: it is stored as +0.
fn plus_zero(v: f64) -> f64 {
    if v == 0.0 { 0.0 } else { v }
}

impl<'a> Stored<'a> {
    fn take(&mut self) -> Option<u64> {
        let (first, rest) = self.inputs.split_first()?;
        self.inputs = rest;
        Some(*first)
    }

    fn take_count(&mut self) -> Option<usize> {
        Some(self.take()? as usize)
    }

    fn take_float(&mut self) -> Option<f64> {
        Some(floats::float_of(self.take()?))
    }

    fn take_eight(&mut self) -> Option<[f64; 8]> {
        let mut x = [0.0; 8];
        for v in x.iter_mut() {
            *v = self.take_float()?;
        }
        Some(x)
    }

    // A slice has its size first, then its bytes as words.
    fn take_bytes<'b>(&mut self, buffer: &'b mut [u8]) -> Option<&'b [u8]> {
        let size = self.take_count()?;
        self.take_sized(size, buffer)
    }

    fn take_sized<'b>(&mut self, size: usize, buffer: &'b mut [u8]) -> Option<&'b [u8]> {
        for k in 0..size.div_ceil(8) {
            blocks::write_word(buffer, k, self.take()?);
        }
        buffer.get(..size)
    }

    // A place is three words; another kind is none.
    fn take_place(&mut self) -> Option<Place> {
        let kind = self.take()?;
        let (a, b) = (self.take()?, self.take()?);
        Some(match kind {
            1 => Place::Block(a),
            2 => Place::Pair(a, b),
            3 => Place::Offered,
            _ => Place::Nowhere,
        })
    }

    fn give(&mut self, word: u64) {
        match self.results.split_first() {
            Some((first, rest)) => {
                self.differs |= *first != word;
                self.results = rest;
            }
            None => self.differs = true,
        }
    }

    fn give_float(&mut self, v: f64) {
        self.give(floats::bits_of(v));
    }

    fn give_eight(&mut self, x: &[f64; 8]) {
        for v in x {
            self.give_float(*v);
        }
    }

    fn give_place(&mut self, place: Place) {
        let words = match place {
            Place::Nowhere => [0, 0, 0],
            Place::Block(k) => [1, k, 0],
            Place::Pair(i, j) => [2, i, j],
            Place::Offered => [3, 0, 0],
        };
        for word in words.iter() {
            self.give(*word);
        }
    }

    // A function of one float.
    fn one<F: Fn(f64) -> f64>(&mut self, f: F) -> Option<()>
        requires { F.IsAlwaysCallable f }
    {
        let v = self.take_float()?;
        self.give_float(f(v));
        Some(())
    }

    // A function of two.
    fn two<F: Fn(f64, f64) -> f64>(&mut self, f: F) -> Option<()>
        requires { F.IsAlwaysCallable f }
    {
        let a = self.take_float()?;
        let b = self.take_float()?;
        self.give_float(f(a, b));
        Some(())
    }

    // A part of the answer slice: its first block and as many trials as word 12 says.
    fn give_blocks(&mut self, part: &[u8]) {
        let trials = blocks::word(part, 12).min(8) as usize;
        for k in 0..64 * (1 + trials) {
            self.give(blocks::word(part, k));
        }
    }

    // The number and, of an answer, the blocks of its parts.
    fn give_answer(&mut self, answered: Result<(), Refusal>, slice: &[u8], parts: usize) {
        self.give(number_in(answered));
        if answered.is_ok() {
            for part in slice.chunks(ANSWER_ROOM).take(parts) {
                self.give_blocks(part);
            }
        }
    }
}

fn normalize(stored: &mut Stored) -> Option<()> {
    let n = stored.take_count()?;
    let x = stored.take_eight()?;
    match thermo_types::normalize(&x, n) {
        Ok(fractions) => {
            stored.give(0);
            stored.give_eight(&fractions);
        }
        Err(refusal) => stored.give(u64::from(refusal)),
    }
    Some(())
}

fn open_book(stored: &mut Stored) -> Option<()> {
    let mut book = [0; 32768];
    let book = stored.take_bytes(&mut book)?;
    match book::open_book(book) {
        Ok(head) => stored.give((head.n as u64).wrapping_add(100)),
        Err(refusal) => stored.give(u64::from(refusal)),
    }
    Some(())
}

fn give_rice(stored: &mut Stored, found: Result<RachfordRice, Refusal>) {
    match found {
        Err(refusal) => stored.give(u64::from(refusal).wrapping_add(100)),
        Ok(s) => {
            stored.give(s.outcome.number());
            if let RachfordRiceOutcome::TwoPhase(beta, residual, iterations) = s.outcome {
                stored.give_float(beta);
                stored.give_float(residual);
                // Exact for every count below 2^32.
                stored.give_float(f64::from((iterations % 4294967296) as u32));
                stored.give_eight(&s.liquid);
                stored.give_eight(&s.vapor);
            }
        }
    }
}

fn rice<F: Fn(&[f64; 8], &[f64; 8], usize, u64) -> Result<RachfordRice, Refusal>>(
    solver: F,
    stored: &mut Stored,
) -> Option<()>
    requires { F.IsAlwaysCallable solver }
{
    let n = stored.take_count()?;
    let limit = stored.take()?;
    let z = stored.take_eight()?;
    let k = stored.take_eight()?;
    give_rice(stored, solver(&z, &k, n, limit));
    Some(())
}

// A book, a question and the length of the answer slice.
// Kept: beside `answer_with`, which as one with it would take a flag for whether a third slice is stored.
fn answer(stored: &mut Stored) -> Option<()> {
    let mut book = [0; 24576];
    let mut question = [0; 4096];
    let mut out = [0; 32768];
    let book = stored.take_bytes(&mut book)?;
    let question = stored.take_bytes(&mut question)?;
    let out = out.get_mut(..stored.take_count()?)?;
    let answered = sheet::answer(book, question, out);
    stored.give_answer(answered, out, 1);
    Some(())
}

// With one slice more: drums, feeds, an offered pair or an allowance. How many parts an answer has stands beside it.
fn answer_with<F: Fn(&[u8], &[u8], &[u8], &mut [u8]) -> (Result<(), Refusal>, usize)>(
    call: F,
    stored: &mut Stored,
) -> Option<()>
    requires { F.IsAlwaysCallable call }
{
    let mut book = [0; 24576];
    let mut question = [0; 4096];
    let mut lent = [0; 8192];
    let mut out = [0; 32768];
    let book = stored.take_bytes(&mut book)?;
    let question = stored.take_bytes(&mut question)?;
    let lent = stored.take_bytes(&mut lent)?;
    let out = out.get_mut(..stored.take_count()?)?;
    let (answered, parts) = call(book, question, lent, out);
    stored.give_answer(answered, out, parts);
    Some(())
}

fn give_distance(stored: &mut Stored, found: Distance) {
    let words = match found {
        Distance::Step(s, outcome, refused) => [1, s, outcome, refused],
        Distance::None(refused) => [0, 0, 0, refused],
    };
    for word in words.iter() {
        stored.give(*word);
    }
}

// A book, a question and how many words are lent: the number and, where four are, those of what was found.
fn next_change(stored: &mut Stored) -> Option<()> {
    let mut book = [0; 24576];
    let mut question = [0; 4096];
    let book = stored.take_bytes(&mut book)?;
    let question = stored.take_bytes(&mut question)?;
    let lent = stored.take_count()?;
    match distance::answer(book, question) {
        Err(refusal) => stored.give(u64::from(refusal)),
        Ok(found) => {
            stored.give(0);
            if lent >= 4 {
                give_distance(stored, found);
            }
        }
    }
    Some(())
}

// An answer slice and the room for words of the floor: the floor's number, how many bytes are the lab's and, where there are any,
// the floor's words.
fn read_sheets(stored: &mut Stored) -> Option<()> {
    let mut answer = [0; 32768];
    let mut shown = [0; 64];
    let answer = stored.take_bytes(&mut answer)?;
    let shown = shown.get_mut(..stored.take_count()?)?;
    let filled = readers::write_floor(answer, shown);
    stored.give(number_in(filled));
    stored.give(match readers::lab(answer) {
        Ok(part) => part.len() as u64,
        Err(_) => 0,
    });
    if filled.is_ok() {
        for word in shown.iter().take(22) {
            stored.give(*word);
        }
    }
    Some(())
}

// Which call, its inputs, and how many words are lent for the place: the number and, where three are, where it was said no.
fn placed(stored: &mut Stored) -> Option<()> {
    let mut book = [0; 24576];
    let mut question = [0; 4096];
    let mut lent = [0; 8192];
    let mut out = [0; 32768];
    let kind = stored.take()?;
    let book = stored.take_bytes(&mut book)?;
    let question = stored.take_bytes(&mut question)?;
    let size = match kind {
        1..=4 => stored.take_count()?,
        _ => 0,
    };
    let lent = stored.take_sized(size, &mut lent)?;
    let out = out.get_mut(..stored.take_count()?)?;
    let words = stored.take()?;
    let answered = match kind {
        0 => sheet::answer(book, question, out),
        1 => pool::answer(book, question, lent, out),
        2 => batch::answer(book, question, lent, out),
        3 => preview::answer(book, lent, question, out),
        4 => queue::answer(book, question, blocks::word(lent, 0), out),
        5 => distance::answer(book, question).map(|_| ()),
        _ => return None,
    };
    stored.give(number_in(answered));
    if words >= 3 {
        stored.give_place(match answered {
            Ok(()) => Place::Nowhere,
            Err(refusal) if kind == 3 => book::preview_place(book, refusal),
            Err(refusal) => book::place_of(book, refusal),
        });
    }
    Some(())
}

// A number, a place and the length of a text slice: the number and, of a sentence, how many bytes and these as words.
fn sentence(stored: &mut Stored) -> Option<()> {
    let mut text = [0; 4096];
    let number = stored.take()?;
    let place = stored.take_place()?;
    let text = text.get_mut(..stored.take_count()?)?;
    match sentences::write(number, place, text) {
        Err(refusal) => stored.give(u64::from(refusal)),
        Ok(n) => {
            stored.give(0);
            stored.give(n as u64);
            for k in 0..n.div_ceil(8) {
                stored.give(blocks::word(text, k));
            }
        }
    }
    Some(())
}

// Takes the inputs of the function with that name, and gives its results; none where there is no such function, there are too
// few inputs or too long a slice.
// Kept: the names stand here and in the order of the report: an enum of the functions would name each a third time, and a table
// of names and functions would be one of function pointers.
pub(crate) fn call(name: &str, stored: &mut Stored) -> Option<()> {
    match name {
        "exp" => stored.one(numerics::exp)?,
        "ln" => stored.one(numerics::ln)?,
        "powf" => stored.two(numerics::powf)?,
        "max" => stored.two(|a, b| plus_zero(floats::max(a, b)))?,
        "min" => stored.two(|a, b| plus_zero(floats::min(a, b)))?,
        "abs" => stored.one(floats::abs)?,
        "is_finite" => {
            let v = floats::is_finite(stored.take_float()?);
            stored.give(u64::from(v));
        }
        "bits_of" | "float_of" => stored.one(|v| v)?,
        "fractions" => {
            let n = stored.take_count()?;
            let x = stored.take_eight()?;
            stored.give(number_in(thermo_types::with_fractions(&x, n)));
        }
        "normalize" => normalize(stored)?,
        "open_book" => open_book(stored)?,
        "rachford_rice" => rice(rachford_rice::rachford_rice, stored)?,
        "rachford_rice_negative" => rice(rachford_rice::rachford_rice_negative, stored)?,
        "answer" => answer(stored)?,
        "pooled" => answer_with(
            |book, question, drums, out| (pool::answer(book, question, drums, out), 1),
            stored,
        )?,
        "feeds" => answer_with(
            |book, question, feeds, out| (
                batch::answer(book, question, feeds, out),
                feeds.len() / 64,
            ),
            stored,
        )?,
        "preview" => answer_with(
            |book, question, offered, out| (preview::answer(book, offered, question, out), 1),
            stored,
        )?,
        "queue" => answer_with(
            |book, questions, allowance, out| (
                queue::answer(book, questions, blocks::word(allowance, 0), out),
                questions.len() / 512,
            ),
            stored,
        )?,
        "distance" => next_change(stored)?,
        "readers" => read_sheets(stored)?,
        "place" => placed(stored)?,
        "sentence" => sentence(stored)?,
        _ => return None,
    }
    Some(())
}
