//! The laws of the tables.

ghost use Rattle.std.specs.Prelude.{◌≡◌, ℕ, List, length};
ghost use Rattle.auction_terms.specs.declared.Config.{Config};
ghost use Rattle.auction_terms.specs.declared.Entry.{Entry};
ghost use Rattle.auction_terms.specs.declared.Order.{Order};
ghost use Rattle.auction_terms.specs.Day.{IsLegal, calls_of, replay};
ghost use Rattle.day_tables.specs.DecidingRule.{rule_of, IsDecidedBy};
ghost use Rattle.day_tables.specs.TradeTable.{trade_auctions};

/// The rule that is named for a book says what its price is, at every reference.
pub fn rule_decides()
    ensures { (book : List Order) (reference : ℕ) → IsDecidedBy book reference (rule_of book) }
{}

/// A lawful history names an auction for each trade of its tape, so the table has all of them.
pub fn each_trade_is_printed()
    ensures { (config : Config) (entries : List Entry) → IsLegal config entries
        → length (trade_auctions entries) ≡ length (replay config (calls_of entries)).0.tape }
{}
