//! The law of two runs, the second of which reads what the first printed. The function does nothing.

ghost use Rattle.program_runs.specs.PrintedJournals.{AuctionJournalsAreLawful, BoardJournalsAreLawful, SettingsFitDay};

/// A journal that a run printed is audited lawful, whoever ran the commands. It needs a day whose numbers are in the
/// ranges of the options, as those of all settings are.
pub fn printed_journals_are_lawful()
    ensures settings { SettingsFitDay }
    ensures auction { AuctionJournalsAreLawful }
    ensures board { BoardJournalsAreLawful }
{}
