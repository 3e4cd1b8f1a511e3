// The refusals: the questions of docs/FORMAT.md, each by its name and number.
#![tactic(auto)]

ghost use Rattle.std.proofs.Common.{rules};
ghost use Rattle.std.specs.Prelude.{◌≡◌, ℕ};
ghost use Rattle.outcome.specs.declared.Refusal.{Refusal};
ghost use Rattle.outcome.specs.Refused.{number, number_in};

// The question that was answered no.
#[derive(Clone, Copy)]
pub enum Refusal {
    BookLength = 1,
    BookCheck,
    BookHead,
    SolventBlock,
    SolventNumber,
    SolventTwice,
    PairBlock,
    PairNumber,
    PairAlphas,
    AnswerShort,
    QuestionBlock,
    Task,
    Temperature,
    Pressure,
    NotFinite,
    FractionNegative,
    KNotPositive,
    FractionSum,
    Options,
    LimitZero,
    LimitHigh,
    TemperatureOutside,
    PressureOutside,
    AlphaNotPositive,
    ResultNotFinite,
    NotBracketed,
    NotConverged,
    KOneSided,
    LiquidUnstable,
    VaporFractionOutside,
    DrumsLength,
    DrumsTotal,
    FeedsLength,
    NotNormalizable,
    MolarMass,
    FeedKind,
    BookModel,
    BookVersion,
    QueueQuestions,
}

impl From<Refusal> for u64 {
    ghost from_gives = { λ refusal n. n ≡ number refusal };

    fn from(refusal: Refusal) -> u64 {
        refusal as u64
    }
}

// What a call says with its no: a refusal, or numbers of the caller's own among which each refusal has its number.
pub trait Reason: From<Refusal> + Copy {
    ghost said: { Self → ℕ };

    ghost of_refusal: { (refusal : Refusal) (reason : Self) → Self.from_gives refusal reason → said reason ≡ number refusal };
}

impl Reason for Refusal {
    ghost said = { number };

    ghost of_refusal = { λ a b p. Prim.search rules };
}

impl Reason for u64 {
    ghost said = { λ n. n };

    ghost of_refusal = { λ a b p. p };
}

// What a call gives in C: 0, or the refusal's number.
pub fn number_in(answered: Result<(), Refusal>) -> u64
    ensures { result ≡ number_in answered }
{
    match answered {
        Ok(()) => 0,
        Err(refusal) => u64::from(refusal),
    }
}
