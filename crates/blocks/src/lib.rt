// Blocks of 512 bytes: 64 little-endian words of 64 bits, the last the check of the others.
#![tactic(auto)]

ghost use Rattle.std.specs.Prelude.{◌≡◌, ℕ, ◌+◌, ◌*◌, ◌%◌, ◌^◌, ◌≤◌, ◌++◌, length, drop};
ghost use Rattle.blocks.specs.Words.{byte, word, word_of, word_from, block, check_sum, running_sum, sum_by, check_right, TakesWords, GivesWords};
ghost use Rattle.blocks.specs.Bytes.{bytes, row_to, put, stored, block_bytes, word_at};

// How a block's check is worked out of its words 0 to 62: plainly their sum, or the sum of their running sums.
#[derive(Clone, Copy)]
pub enum Rule {
    Plain,
    Running,
}

// The word of eight bytes, lowest first.
pub fn word_of(a: u8, b: u8, c: u8, d: u8, e: u8, f: u8, g: u8, h: u8) -> u64
    ensures { result ≡ word_of a b c d e f g h }
{
    u64::from_le_bytes([a, b, c, d, e, f, g, h])
}

fn word_from(s: &[u8], at: usize) -> u64
    requires { at + 8 ≤ length s.now }
    ensures { result ≡ word_from s.now at }
{
    u64::from_le_bytes(s[at..at + 8].try_into().unwrap())
}

// Past the end a byte is 0.
fn byte_at(s: &[u8], at: usize) -> u8
    ensures { result ≡ byte s.now at }
{
    s.get(at).copied().unwrap_or(0)
}

// A word that the slice's end may cut short, each byte tested by itself.
#[tactic(auto, unfolding(crate::specs::Words::word))]
fn short_word(s: &[u8], k: usize) -> u64
    ensures { result ≡ word s.now k }
{
    if s.len() / 8 < k {
        return 0;
    }
    u64::from_le_bytes(std::array::from_fn(|i| byte_at(s, 8 * k + i)))
}

// Word k of a slice, of a block as a rule. Bytes past the end count as 0.
#[tactic(auto, unfolding(crate::specs::Words::word))]
pub fn word(s: &[u8], k: usize) -> u64
    ensures { result ≡ word s.now k }
{
    if k < s.len() / 8 {
        return word_from(s, 8 * k);
    }
    short_word(s, k)
}

// Block k of a book: those 512 bytes of the caller's own slice, or what there is of them. `chunks(512).nth(k)` would pass over
// k blocks: 19 ns for 3.7 over the blocks of a book of eight solvents.
pub fn block(book: &[u8], k: usize) -> &[u8]
    ensures { result.now ≡ block book.now k }
{
    let (blocks, rest) = book.as_chunks::<512>();
    match blocks.get(k) {
        Some(whole) => whole,
        None if k == blocks.len() => rest,
        None => &[],
    }
}

impl Rule {
    // The sum of words 0 to 62, modulo 2^64.
    // Kept: `match self` is the definition by cases.
    #[inline(always)]
    #[tactic(auto, unfolding(crate::specs::Words::sum_by))]
    fn sum<F: Fn(usize) -> u64>(self, word: F) -> u64
        requires { TakesWords (F.pre word) }
        ensures { (w : ℕ → ℕ) → GivesWords (F.post word) w → result ≡ sum_by self w }
    {
        match self {
            Rule::Plain => plain_sum(word),
            Rule::Running => running_sum(word),
        }
    }
}

// Kept: a `fold`'s closure asks `word` for any index, and a block has 63. `map(word)` asks for those alone, but std's law of what
// it gives (`YieldsList-from_map`) is over any index too. Here and in `running_sum`.
#[inline(always)]
fn plain_sum<F: Fn(usize) -> u64>(word: F) -> u64
    requires { TakesWords (F.pre word) }
    ensures { (w : ℕ → ℕ) → GivesWords (F.post word) w → result ≡ check_sum w 63 }
{
    let mut sum: u64 = 0;
    for k in 0usize..63 {
        sum = sum.wrapping_add(word(k));
    }
    sum
}

fn running_sum<F: Fn(usize) -> u64>(word: F) -> u64
    requires { TakesWords (F.pre word) }
    ensures { (w : ℕ → ℕ) → GivesWords (F.post word) w → result ≡ running_sum w 63 }
{
    let mut sum: u64 = 0;
    let mut runs: u64 = 0;
    for k in 0usize..63 {
        sum = sum.wrapping_add(word(k));
        runs = runs.wrapping_add(sum);
    }
    runs
}

fn lanes_sum(a: &[u64; 4], t: &[u64; 4]) -> u64
    ensures { result ≡ (4 * (word_at t.now 0 + word_at t.now 1 + word_at t.now 2 + word_at t.now 3) + 3 * word_at a.now 0 + 2 * word_at a.now 1 + word_at a.now 2) % 2 ^ 64 }
{
    let late = t[0]
        .wrapping_add(t[1])
        .wrapping_add(t[2])
        .wrapping_add(t[3]);
    let ends = a[0]
        .wrapping_mul(3)
        .wrapping_add(a[1].wrapping_mul(2))
        .wrapping_add(a[2]);
    late.wrapping_mul(4).wrapping_add(ends)
}

// Word k counts 63 - k times, which is 4 (15 - r) + (3 - c) for k = 4 r + c. So each of four lanes, c, keeps its sum a
// and the sum t of what a was before each row, and no row waits for the one word before. The rows go by the slice, at most
// a block's sixteen, and its length is tested after them: a count of 16 would have the compiler take the loop apart before it
// puts two lanes to a step, and the sum would take twice as long.
fn running_rows(s: &[u8]) -> u64
    ensures { 512 ≤ length s.now → result ≡ running_sum (word s.now) 63 }
{
    let rows = (s.len() / 32).min(16);
    let mut a = [0u64; 4];
    let mut t = [0u64; 4];
    for r in 0usize..rows {
        for c in 0usize..4 {
            t[c] = t[c].wrapping_add(a[c]);
            a[c] = a[c].wrapping_add(word_from(s, 32 * r + 8 * c));
        }
    }
    lanes_sum(&a, &t)
}

// The sum of a block's words 0 to 62 by a rule. A whole block has loops of its own: with `word`'s test in it the sum takes
// four times as long.
// Kept: a match, since each rule has a loop of its own for a whole block, of 504 and of 512 bytes.
#[tactic(auto, unfolding(crate::specs::Words::word, crate::specs::Words::sum_by))]
fn block_sum(rule: Rule, s: &[u8]) -> u64
    ensures { result ≡ sum_by rule (word s.now) }
{
    match rule {
        Rule::Plain => {
            if 504 <= s.len() {
                return plain_sum(|k| word_from(s, 8 * k));
            }
        }
        Rule::Running => {
            let sum = running_rows(s);
            if 512 <= s.len() {
                return sum;
            }
        }
    }
    rule.sum(|k| short_word(s, k))
}

// Is word 63 of a block the check of the words before it?
#[tactic(auto, unfolding(crate::specs::Words::check_right))]
pub fn check_right(rule: Rule, s: &[u8]) -> bool
    ensures { result ≡ check_right rule (word s.now) }
{
    block_sum(rule, s) == word(s, 63)
}

#[inline]
fn store_word(out: &mut [u8], k: usize, w: u64)
    requires { 8 * k + 8 ≤ length out.old }
    ensures { out.new ≡ put out.old (8 * k) (bytes w) }
{
    let from = 8 * k;
    out[from..from + 8].copy_from_slice(&w.to_le_bytes());
}

// Word k of a slice is written; where the slice is too short, nothing.
pub fn write_word(out: &mut [u8], k: usize, w: u64)
    ensures { out.new ≡ stored out.old (8 * k) (bytes w) }
{
    if k < out.len() / 8 {
        store_word(out, k, w);
    }
}

// Words 0 to 62 of `ws`, then word 63.
#[inline(always)]
#[tactic(auto, unfolding(crate::specs::Bytes::row_to))]
fn store_words(out: &mut [u8], ws: &[u64; 64], check: u64)
    requires { 512 ≤ length out.old }
    ensures { out.new ≡ (row_to (λ k. bytes (word_at ws.now k)) 63 ++ bytes check) ++ drop 512 out.old }
{
    for k in 0usize..63 {
        store_word(out, k, ws[k]);
    }
    store_word(out, 63, check);
}

#[inline(always)]
fn store_at(out: &mut [u8], b: usize, rule: Rule, ws: &[u64; 64])
    requires { 512 * b + 512 ≤ length out.old }
    ensures { out.new ≡ put out.old (512 * b) (block_bytes rule (word_at ws.now)) }
{
    let check = rule.sum(|k| ws[k]);
    let from = 512 * b;
    store_words(&mut out[from..], ws, check);
}

// Block b of a slice is written: words 0 to 62 of `ws` and their check. Where the slice is too short, nothing.
// Inlined with all that it calls: where the rule and the words' places are known, the words are summed and stored with no array.
#[inline(always)]
pub fn write_at(out: &mut [u8], b: usize, rule: Rule, ws: &[u64; 64])
    ensures { out.new ≡ stored out.old (512 * b) (block_bytes rule (word_at ws.now)) }
{
    if b < out.len() / 512 {
        store_at(out, b, rule, ws);
    }
}

// The first block of a slice is written, as by `write_at`.
#[inline(always)]
pub fn write_block(out: &mut [u8], rule: Rule, ws: &[u64; 64])
    ensures { out.new ≡ stored out.old 0 (block_bytes rule (word_at ws.now)) }
{
    write_at(out, 0, rule, ws);
}
