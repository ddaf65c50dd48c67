//! The rules of a valid model, each by what breaks it.
ghost use Rattle.std.specs.Prelude.{◌≡◌};
ghost use Rattle.cps_validate.specs.Numbers.{number_of};

/// A rule that is broken.
#[derive(Clone, Copy)]
pub enum Rule {
    /// A variable's domain is no list of intervals, or is empty.
    IllFormedDomain,
    /// A bound of a variable's domain reaches 2^62 in magnitude.
    FarBound,
    /// A reference other than a hint's names no variable.
    UnknownVariable,
    /// A literal's variable has values beside 0 and 1.
    NotBoolean,
    /// Lists that belong together are not equally long.
    UnequalLists,
    /// A sum can reach 2^62 in magnitude.
    FarSum,
    /// The domain of a linear constraint is no list of intervals.
    IllFormedLinearDomain,
    /// A divisor can be 0.
    ZeroDivisor,
    /// A modulus can be below 1.
    LowModulus,
    /// The magnitudes of a product's factors multiply to 2^62 or more.
    FarProduct,
    /// A demand can be below 0.
    NegativeDemand,
    /// The index of an interval is not that of an interval constraint.
    UnknownInterval,
    /// A kind has not as many expressions as it works on.
    WrongOperands,
    /// A table without expressions has values.
    ValuesWithoutColumns,
    /// A node of a circuit is below 0, or has two loops.
    WrongNodes,
    /// The objective's domain is no list of intervals.
    IllFormedObjectiveDomain,
    /// A hint has not a value for each reference, or names no variable, or names one twice.
    WrongHint,
    /// The model has too many parts.
    TooLarge,
    /// A reservoir refuses the level 0.
    ZeroRefused,
}

impl Rule {
    /// The number under which the rule is published.
    pub fn number(self) -> u8
        ensures { result ≡ number_of self }
    {
        match self {
            Rule::IllFormedDomain => 1,
            Rule::FarBound => 2,
            Rule::UnknownVariable => 3,
            Rule::NotBoolean => 4,
            Rule::UnequalLists => 5,
            Rule::FarSum => 6,
            Rule::IllFormedLinearDomain => 7,
            Rule::ZeroDivisor => 8,
            Rule::LowModulus => 9,
            Rule::FarProduct => 10,
            Rule::NegativeDemand => 11,
            Rule::UnknownInterval => 12,
            Rule::WrongOperands => 13,
            Rule::ValuesWithoutColumns => 14,
            Rule::WrongNodes => 15,
            Rule::IllFormedObjectiveDomain => 16,
            Rule::WrongHint => 17,
            Rule::TooLarge => 18,
            Rule::ZeroRefused => 19,
        }
    }
}
