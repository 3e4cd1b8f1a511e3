// The stored text: tokens between single spaces. A word is 16 hex digits; `zN` stands for N zero words; `bN` opens N bytes, given as words; `=` ends the inputs.
ghost use Rattle.std.specs.Prelude.{◌≤◌};

// More than any line has.
pub(crate) const WORDS: usize = 4096;

// Small letters alone are digits past 9.
fn digit(b: u8) -> u64
    ensures { result ≤ 16 }
{
    match b {
        b'0'..=b'9' => u64::from(b - b'0'),
        b'a'..=b'f' => u64::from(b - b'a') + 10,
        _ => 16,
    }
}

// What no longer fits is dropped.
fn number(digits: &str, base: u64) -> Option<u64>
    requires { base ≤ 16 }
{
    let mut v = 0;
    for b in digits.bytes() {
        let d = digit(b);
        if base <= d {
            return None;
        }
        v = v % 0x1000000000000000 * base + d;
    }
    Some(v)
}

// What follows a letter: at least one digit.
fn count_of(token: &str, letter: char) -> Option<u64> {
    let digits = token.strip_prefix(letter)?;
    if digits.is_empty() {
        return None;
    }
    number(digits, 10)
}

// How many zero words a token stands for; `bN` is the word N.
fn zeros_of(token: &str) -> Option<u64> {
    if token.len() == 16 {
        return None;
    }
    count_of(token, 'z')
}

fn word_of(token: &str) -> Option<u64> {
    if token.len() == 16 {
        number(token, 16)
    } else {
        count_of(token, 'b')
    }
}

// The words of a line, inputs first, stored in `words`, which are zeros before: how many are inputs, and how many there are.
pub(crate) fn read_words(text: &str, words: &mut [u64; WORDS]) -> Option<(usize, usize)> {
    let mut inputs = None;
    let mut count = 0usize;
    for token in text.split(' ') {
        if token == "=" {
            if inputs.is_some() {
                return None;
            }
            inputs = Some(count);
        } else if let Some(zeros) = zeros_of(token) {
            count = count.checked_add(usize::try_from(zeros).ok()?)?;
        } else {
            *words.get_mut(count)? = word_of(token)?;
            count += 1;
        }
    }
    Some((inputs?, count))
}
