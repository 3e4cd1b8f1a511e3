// Outcomes that count the evaluations begun on the way to them: definitions in specs/, laws in proofs/. In the code the count is a
// word that is lent.
#![tactic(auto)]

ghost use Rattle.std.specs.Prelude.{◌≡◌, ◌+◌};
ghost use Rattle.counted.specs.Counted.{count_word};

// One evaluation more.
#[tactic(auto, unfolding(crate::specs::Counted::count_word))]
pub fn begin(begun: &mut u64)
    ensures { begun.new ≡ count_word (begun.old + 1) }
{
    *begun = begun.wrapping_add(1);
}
