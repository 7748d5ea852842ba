//! The rule that decides an auction price.

ghost use Rattle.std.specs.Prelude.{◌≡◌, ◌≤◌, length};
ghost use Rattle.day_tables.specs.BookTable.{rule_word};

/// The rule that decides an auction price.
#[derive(Clone, Copy, Debug, PartialEq, Eq)]
pub enum Rule {
    /// Market orders alone are matched at the reference.
    Market,
    /// One limit is best.
    Single,
    /// Several limits are best, all with a bid surplus: the highest of them is the price.
    Highest,
    /// Several limits are best, all with an ask surplus: the lowest of them is the price.
    Lowest,
    /// The reference decides, clamped between the two limits that are kept of the best.
    Reference,
}

/// The word of a rule.
pub(crate) fn rule_word(rule: Rule) -> &'static str
    ensures word { result.now ≡ rule_word rule }
    ensures short { length result.now ≤ 9 }
{
    match rule {
        Rule::Market => "market",
        Rule::Single => "single",
        Rule::Highest => "highest",
        Rule::Lowest => "lowest",
        Rule::Reference => "reference",
    }
}
