// Replays stored answers of the reference (data/, written by reference/store): calls the core on each stored input and compares every word of the result.
// Writes a line for each function, and how many lines could not be read. A program has no result to state: what is proved is that it is safe and ends.
#![tactic(auto)]

use calls::Stored;
use std::io;
use std::rt::Files;

mod calls;
mod text;

// The stored files.
const FILES: [&str; 15] = [
    "numbers.txt",
    "fractions.txt",
    "book.txt",
    "rice.txt",
    "sheet.txt",
    "differences.txt",
    "wilson.txt",
    "pooled.txt",
    "feeds.txt",
    "preview.txt",
    "queue.txt",
    "distance.txt",
    "readers.txt",
    "place.txt",
    "sentence.txt",
];

// More than any of them has.
const FILE_BYTES: usize = 524288;

// More than any function gives: a line with more results differs.
const RESULTS: usize = 640;

// The functions, in the order of the report.
const NAMES: [&str; 23] = [
    "exp",
    "ln",
    "powf",
    "max",
    "min",
    "abs",
    "is_finite",
    "bits_of",
    "float_of",
    "fractions",
    "normalize",
    "open_book",
    "rachford_rice",
    "rachford_rice_negative",
    "answer",
    "pooled",
    "feeds",
    "preview",
    "queue",
    "distance",
    "readers",
    "place",
    "sentence",
];

// Of a function: how many lines were replayed, and how many of them differ.
#[derive(Clone, Copy)]
struct Function {
    name: &'static str,
    replayed: u64,
    differ: u64,
}

#[derive(Clone, Copy)]
struct Tally {
    functions: [Function; 23],
    unread: u64,
}

impl Tally {
    // A file or a line that could not be read.
    fn miss(&mut self) {
        self.unread = self.unread.saturating_add(1);
    }

    // A line of the function at place k.
    fn count(&mut self, k: usize, differs: bool) {
        if let Some(function) = self.functions.get_mut(k) {
            function.replayed = function.replayed.saturating_add(1);
            function.differ = function.differ.saturating_add(u64::from(differs));
        }
    }
}

// The place of the function that a line calls, and whether its results differ; none where it could not be read.
fn replay(line: &str, functions: &[Function; 23]) -> Option<(usize, bool)> {
    let (name, text) = line.split_once(' ')?;
    let k = functions.iter().position(|f| f.name == name)?;
    let mut words = [0; text::WORDS];
    let (inputs, count) = text::read_words(text, &mut words)?;
    let mut stored = Stored {
        inputs: words.get(..inputs)?,
        results: words.get(inputs..count)?,
        differs: false,
    };
    let long = RESULTS < stored.results.len();
    calls::call(name, &mut stored)?;
    if !stored.inputs.is_empty() {
        return None;
    }
    Some((k, long || stored.differs || !stored.results.is_empty()))
}

// A comment is passed over; a line that is no text can't be read.
fn replay_line(line: &[u8], tally: &mut Tally) {
    if line.starts_with(b"#") {
        return;
    }
    let read = match std::str::from_utf8(line) {
        Ok(line) => replay(line, &tally.functions),
        Err(_) => None,
    };
    match read {
        Some((k, differs)) => tally.count(k, differs),
        None => tally.miss(),
    }
}

fn replay_lines(file: &[u8], tally: &mut Tally) {
    for line in file.split_inclusive(|b| *b == b'\n') {
        replay_line(line.strip_suffix(b"\n").unwrap_or(line), tally);
    }
}

// A file that is missing or too long for the buffer counts as an unread line, beside those that are read.
fn replay_file(rt: &impl Files, path: &str, buffer: &mut [u8; FILE_BYTES], tally: &mut Tally) {
    let n = reading::read_path(rt, path, buffer);
    replay_lines(&buffer[..n], tally);
    if n == 0 || n == FILE_BYTES {
        tally.miss();
    }
}

fn main(rt: HostRuntime) -> io::Result<()> {
    let mut buffer = [0; FILE_BYTES];
    let mut tally = Tally {
        functions: NAMES.map(|name| Function {
            name,
            replayed: 0,
            differ: 0,
        }),
        unread: 0,
    };
    for path in FILES {
        replay_file(&rt, path, &mut buffer, &mut tally);
    }
    for f in tally.functions.iter() {
        println!(rt; "{}: {} replayed, {} differ", f.name, f.replayed, f.differ)?;
    }
    println!(rt; "unread: {}", tally.unread)
}
