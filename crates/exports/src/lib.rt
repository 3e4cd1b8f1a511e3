// The functions under C names, for the comparison with the reference and for benchmarks. A slice passes as a pointer and a length.
#![tactic(auto)]

ghost use Rattle.std.specs.Prelude.{◌≡◌, cond, leb, length};
ghost use Rattle.floats.specs.Small.{is_finite, max_of, min_of, abs_of, bits_of, float_of};
ghost use Rattle.floats.specs.Vector.{at, fill_from, places};
ghost use Rattle.floats.specs.Outcome.{ok, need};
ghost use Rattle.outcome.specs.Refused.{number_in, outcome_of};
ghost use Rattle.numerics.specs.Numerics.{exp_of, ln_of, powf_of};
ghost use Rattle.thermo_types.specs.Composition.{with_fractions, normalize_of};
ghost use Rattle.thermo_types.specs.Quantities.{positive_of};
ghost use Rattle.thermo_models.specs.Mixture.{mixture_of};
ghost use Rattle.book.specs.Book.{book_of};
ghost use Rattle.rice_exports.specs.Splits.{split_number, split_written, sized, constrained_of, negative_of};
ghost use Rattle.exports.specs.Slices.{eight_of, NormalizedGives, outcome_number, book_number, repeated};
ghost use Rattle.exports.specs.Models.{vapor_at, VaporGives, excess_in, excess_at, ExcessGives, energies_stored};

use excess::Energies;
use liquid::VaporPressure;
use outcome::Refusal;
use thermo_models::{Assessment, Tabled};
use thermo_types::Temperature;

#[unsafe(no_mangle)]
pub extern "C" fn zektonk_exp(v: f64) -> f64
    ensures { result ≡ exp_of v }
{
    numerics::exp(v)
}

#[unsafe(no_mangle)]
pub extern "C" fn zektonk_ln(v: f64) -> f64
    ensures { result ≡ ln_of v }
{
    numerics::ln(v)
}

#[unsafe(no_mangle)]
pub extern "C" fn zektonk_powf(b: f64, e: f64) -> f64
    ensures { result ≡ powf_of b e }
{
    numerics::powf(b, e)
}

#[unsafe(no_mangle)]
pub extern "C" fn zektonk_max(a: f64, b: f64) -> f64
    ensures { result ≡ max_of a b }
{
    floats::max(a, b)
}

#[unsafe(no_mangle)]
pub extern "C" fn zektonk_min(a: f64, b: f64) -> f64
    ensures { result ≡ min_of a b }
{
    floats::min(a, b)
}

#[unsafe(no_mangle)]
pub extern "C" fn zektonk_abs(x: f64) -> f64
    ensures { result ≡ abs_of x }
{
    floats::abs(x)
}

#[unsafe(no_mangle)]
pub extern "C" fn zektonk_is_finite(x: f64) -> bool
    ensures { result ≡ is_finite x }
{
    floats::is_finite(x)
}

#[unsafe(no_mangle)]
pub extern "C" fn zektonk_bits_of(x: f64) -> u64
    ensures { result ≡ bits_of x }
{
    floats::bits_of(x)
}

#[unsafe(no_mangle)]
pub extern "C" fn zektonk_float_of(bits: u64) -> f64
    ensures { result ≡ float_of bits }
{
    floats::float_of(bits)
}

// The first eight entries of a slice, NaN past its end.
fn eight(s: &[f64]) -> [f64; 8]
    ensures { result ≡ eight_of s.now }
{
    match s.first_chunk() {
        Some(front) => *front,
        None => std::array::from_fn(|i| s.get(i).copied().unwrap_or(f64::NAN)),
    }
}

// 0, or 15, 16, 18.
#[unsafe(no_mangle)]
pub extern "C" fn zektonk_fractions(x: &[f64], n: usize) -> u64
    ensures { result ≡ outcome_number (with_fractions (at (eight_of x.now)) (places n) (ok (places n))) }
{
    outcome::number_in(thermo_types::with_fractions(&eight(x), n))
}

// 0, and the first n of eight entries over their sum, 0.0 past them; or 34. With 34 the slice stays, as does one shorter than eight.
#[unsafe(no_mangle)]
#[tactic(auto, unfolding(crate::specs::Slices::outcome_number, crate::specs::Slices::fractions_written, crate::specs::Slices::filled_front))]
pub extern "C" fn zektonk_normalize(x: &mut [f64], n: usize) -> u64
    ensures { NormalizedGives (normalize_of (at (eight_of x.old)) (places n)) result x.old x.new }
{
    match thermo_types::normalize(&eight(x), n) {
        Ok(fractions) => {
            if let Some(front) = x.first_chunk_mut() {
                *front = fractions;
            }
            0
        }
        Err(refusal) => u64::from(refusal),
    }
}

// ---- vapor pressure

#[tactic(auto, unfolding(crate::specs::Models::vapor_at, crate::specs::Models::vapor_from, floats::specs::Outcome::bind))]
fn vapor_at(book: &[u8], i: usize, t: f64) -> Result<VaporPressure, Refusal>
    ensures { outcome_of result ≡ vapor_at book.now i t }
{
    book::open_book(book)?;
    let kelvin = Temperature::new(t)?;
    liquid::vapor_pressure(records::vapor_pressure_record(book, i), kelvin)
}

// 0, with p (Pa), ln p and its two derivatives by T in the first four entries; or 100 for a slice shorter than that, one of the book, 13, 22, 25.
#[unsafe(no_mangle)]
#[tactic(auto, unfolding(floats::specs::Outcome::need, crate::specs::Slices::outcome_number, crate::specs::Models::vapor_written))]
pub extern "C" fn zektonk_vapor_pressure(book: &[u8], i: usize, t: f64, out: &mut [f64]) -> u64
    ensures { VaporGives (need (leb 4 (length out.old)) 100 (vapor_at book.now i t)) result out.old out.new }
{
    let Some(front) = out.first_chunk_mut() else {
        return 100; // Kept: for C, and no refusal's number.
    };
    match vapor_at(book, i, t) {
        Ok(v) => {
            *front = [v.pressure, v.ln.value, v.ln.slope, v.ln.curvature];
            0
        }
        Err(refusal) => u64::from(refusal),
    }
}

// ---- excess

// Kept: entries by number, as C reads them.
fn store_energies(e: Energies, a: Assessment, out: &mut [f64; 23])
    ensures { out.new ≡ energies_stored e a out.old }
{
    out[16] = e.reduced;
    out[17] = e.gibbs;
    out[18] = e.enthalpy;
    out[19] = e.entropy;
    out[20] = e.heat_capacity;
    out[21] = f64::from(a.status as u8);
    out[22] = f64::from(a.inferred);
}

fn store_state(lg: &[f64; 8], sl: &[f64; 8], e: Energies, a: Assessment, out: &mut [f64; 23])
    ensures { out.new ≡ energies_stored e a (fill_from (at sl.now) 8 8 (fill_from (at lg.now) 0 8 out.old)) }
{
    out[..8].copy_from_slice(lg);
    out[8..16].copy_from_slice(sl);
    store_energies(e, a, out);
}

fn excess_in(
    book: &[u8],
    n: usize,
    t: Temperature,
    x: &[f64; 8],
    out: &mut [f64; 23],
) -> Result<(), Refusal>
    ensures { ExcessGives (excess_in (mixture_of book.now (places n)) t.0 x.now) (number_in result) out.old out.new }
{
    let mut table = [0.0; 512];
    let mut lg = [0.0; 8];
    let mut sl = [0.0; 8];
    let s = thermo_models::book_tables(book, b"", n, t, &mut table);
    let e = thermo_models::excess(&table, s, x, &mut lg, &mut sl)?;
    let a = thermo_models::validity(book, b"", n, t, x);
    store_state(&lg, &sl, e, a, out);
    Ok(())
}

fn excess_at(book: &[u8], t: f64, x: &[f64], out: &mut [f64; 23]) -> Result<(), Refusal>
    ensures { ExcessGives (excess_at book.now t x.now) (number_in result) out.old out.new }
{
    let head = book::open_book(book)?;
    let kelvin = Temperature::new(t)?;
    excess_in(book, head.n, kelvin, &eight(x), out)
}

// 0, with ln γ (8), slopes (8), the reduced and the plain Gibbs energy, enthalpy, entropy, heat capacity, validity (0, 1, 2) and inferred (0, 1) in
// the first 23 entries; or 100 for a slice shorter than that, one of the book, 13, 15, 16, 18, 24, 25.
#[unsafe(no_mangle)]
#[tactic(auto, unfolding(floats::specs::Outcome::need, crate::specs::Slices::outcome_number, crate::specs::Models::excess_written))]
pub extern "C" fn zektonk_excess(book: &[u8], t: f64, x: &[f64], out: &mut [f64]) -> u64
    ensures { ExcessGives (need (leb 23 (length out.old)) 100 (excess_at book.now t x.now)) result out.old out.new }
{
    let Some(front) = out.first_chunk_mut() else {
        return 100; // Kept: for C, and no refusal's number.
    };
    outcome::number_in(excess_at(book, t, x, front))
}

// 1 liquid, 2 vapor, 3 both with `out` filled, or 100 + the refusal's number; 0 where a slice is too short.
#[unsafe(no_mangle)]
pub extern "C" fn zektonk_rachford_rice(
    z: &[f64],
    k: &[f64],
    n: usize,
    max_iterations: u64,
    out: &mut [f64],
) -> u64
    ensures value { result ≡ cond (sized z.now k.now out.old) (split_number (constrained_of z.now k.now n max_iterations)) 0 }
    ensures out_after { out.new ≡ cond (sized z.now k.now out.old) (split_written (constrained_of z.now k.now n max_iterations) out.old) out.old }
{
    rice_exports::constrained_split(z, k, n, max_iterations, out)
}

// The same for the negative flash: 3, or 100 + the refusal's number.
#[unsafe(no_mangle)]
pub extern "C" fn zektonk_rachford_rice_negative(
    z: &[f64],
    k: &[f64],
    n: usize,
    max_iterations: u64,
    out: &mut [f64],
) -> u64
    ensures value { result ≡ cond (sized z.now k.now out.old) (split_number (negative_of z.now k.now n max_iterations)) 0 }
    ensures out_after { out.new ≡ cond (sized z.now k.now out.old) (split_written (negative_of z.now k.now n max_iterations) out.old) out.old }
{
    rice_exports::negative_split(z, k, n, max_iterations, out)
}

// 100 + n for an accepted book, else its number.
#[unsafe(no_mangle)]
#[tactic(auto, unfolding(crate::specs::Slices::book_number))]
pub extern "C" fn zektonk_open_book(book: &[u8]) -> u64
    ensures { result ≡ book_number (book_of book.now) }
{
    match book::open_book(book) {
        Ok(head) => 100 + head.n as u64,
        Err(refusal) => u64::from(refusal),
    }
}

// For the benchmark: the activity of x at t, `count` times from one table. Answers `count`.
fn repeat(table: &[f64; 512], s: Tabled, x: &[f64; 8], count: u64) -> u64
    ensures { result ≡ count }
{
    for _ in 0..count {
        let _ = thermo_models::activity(table, s, x);
    }
    count
}

fn repeat_from(book: &[u8], n: usize, t: Temperature, x: &[f64; 8], count: u64) -> u64
    ensures { result ≡ count }
{
    let mut table = [0.0; 512];
    let s = thermo_models::book_tables(book, b"", n, t, &mut table);
    repeat(&table, s, x, count)
}

// Tables of a book of n solvents at t, then the activity of x `count` times; `count`, or 0 where t is none.
#[unsafe(no_mangle)]
pub extern "C" fn zektonk_repeat_activity(
    book: &[u8],
    n: usize,
    t: f64,
    x: &[f64],
    count: u64,
) -> u64
    ensures { result ≡ repeated (positive_of t 13) count }
{
    match Temperature::new(t) {
        Ok(kelvin) => repeat_from(book, n, kelvin, &eight(x), count),
        Err(_) => 0,
    }
}
