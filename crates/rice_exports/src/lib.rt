// The phase split over plain slices: a number, and nineteen floats where there are two phases.
#![tactic(auto)]

ghost use Rattle.std.specs.Prelude.{◌≡◌, cond};
ghost use Rattle.floats.specs.Outcome.{Out};
ghost use Rattle.outcome.specs.Refused.{outcome_of};
ghost use Rattle.rice_exports.specs.Splits.{count_of, both, split_number, split_written, sized, constrained_of, negative_of};

use outcome::Refusal;
use rachford_rice::{RachfordRice, RachfordRiceOutcome};

// Exact for every count below 2^32.
#[tactic(auto, unfolding(crate::specs::Splits::count_of))]
fn count(iterations: u64) -> f64
    ensures { result ≡ count_of iterations }
{
    (iterations % 4294967296) as u32 as f64
}

fn put_both(
    beta: f64,
    residual: f64,
    iterations: u64,
    liquid: &[f64; 8],
    vapor: &[f64; 8],
    out: &mut [f64; 19],
)
    ensures { out.new ≡ both beta residual iterations liquid.now vapor.now out.old }
{
    out[0] = beta;
    out[1] = residual;
    out[2] = count(iterations);
    out[3..11].copy_from_slice(liquid);
    out[11..19].copy_from_slice(vapor);
}

// Kept: a number here and below, since C takes no Result.
#[tactic(auto, unfolding(crate::specs::Splits::split_number, crate::specs::Splits::split_written, crate::specs::Splits::phases_in))]
fn put_answer(answer: Result<RachfordRice, Refusal>, out: &mut [f64; 19]) -> u64
    ensures value { result ≡ split_number (outcome_of answer) }
    ensures out_after { out.new ≡ split_written (outcome_of answer) out.old }
{
    match answer {
        Err(refusal) => 100 + u64::from(refusal),
        Ok(split) => {
            if let RachfordRiceOutcome::TwoPhase(beta, residual, iterations) = split.outcome {
                put_both(beta, residual, iterations, &split.liquid, &split.vapor, out);
            }
            split.outcome.number()
        }
    }
}

// What `split` gives of a feed and ratios of eight, where there is room for both phases; else 0.
#[tactic(auto, unfolding(crate::specs::Splits::sized))]
fn put_split<F: FnOnce(&[f64; 8], &[f64; 8]) -> Result<RachfordRice, Refusal>>(
    z: &[f64],
    k: &[f64],
    out: &mut [f64],
    split: F,
) -> u64
    requires { F.IsAlwaysCallable split }
    ensures { (f : Out RachfordRice) → ((a b : _) (r : _) → a.now ≡ z.now → b.now ≡ k.now → F.post split a b r → outcome_of r ≡ f) → (result ≡ cond (sized z.now k.now out.old) (split_number f) 0) × (out.new ≡ cond (sized z.now k.now out.old) (split_written f out.old) out.old) }
{
    let (Some(feed), Some(ratios)) = (z.as_array(), k.as_array()) else {
        return 0;
    };
    let Some(room) = out.first_chunk_mut() else {
        return 0;
    };
    put_answer(split(feed, ratios), room)
}

pub fn constrained_split(
    z: &[f64],
    k: &[f64],
    n: usize,
    max_iterations: u64,
    out: &mut [f64],
) -> u64
    ensures value { result ≡ cond (sized z.now k.now out.old) (split_number (constrained_of z.now k.now n max_iterations)) 0 }
    ensures out_after { out.new ≡ cond (sized z.now k.now out.old) (split_written (constrained_of z.now k.now n max_iterations) out.old) out.old }
{
    put_split(z, k, out, |z, k| {
        rachford_rice::rachford_rice(z, k, n, max_iterations)
    })
}

pub fn negative_split(z: &[f64], k: &[f64], n: usize, max_iterations: u64, out: &mut [f64]) -> u64
    ensures value { result ≡ cond (sized z.now k.now out.old) (split_number (negative_of z.now k.now n max_iterations)) 0 }
    ensures out_after { out.new ≡ cond (sized z.now k.now out.old) (split_written (negative_of z.now k.now n max_iterations) out.old) out.old }
{
    put_split(z, k, out, |z, k| {
        rachford_rice::rachford_rice_negative(z, k, n, max_iterations)
    })
}
