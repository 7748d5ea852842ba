//! Laws of journals. Each is what the function's contract says; the functions do nothing.

ghost use Rattle.std.specs.Prelude.{◌≡◌};
ghost use Rattle.journal.specs.declared.entry.TheConstants.{MAX_REPLY};
ghost use Rattle.journal.specs.declared.reading.TheConstants.{MAX_JOURNAL_BYTES};
ghost use Rattle.journal.specs.JournalPromises.{AreUniqueTexts, AreFieldTexts, RunInputFits, GivesDay, JournalCallsFit};
ghost use Rattle.journal.specs.JournalPromises.{LegalHasReplayTexts, OrderCallsFit, ReadsBack, ReadsHistory};
ghost use Rattle.journal.specs.JournalPromises.{ReplayIsLegal};

/// The limits of a journal and of its replies, in bytes, as FORMATS.md states them.
pub fn stated_limits()
    ensures journal { MAX_JOURNAL_BYTES ≡ 268_435_456 }
    ensures reply { MAX_REPLY ≡ 256 }
{}

/// What is written as a journal is read back, and so is a history's journal, however long its lines are.
pub fn reads_back()
    ensures texts { ReadsBack }
    ensures history { ReadsHistory }
{}

/// To a run a history's journal gives its day and its calls.
pub fn gives_day()
    ensures { GivesDay }
{}

/// Replies with the same text are the same, and each text of a reply can be in a record.
pub fn reply_texts_are_unique()
    ensures apart { AreUniqueTexts }
    ensures texts { AreFieldTexts }
{}

/// A legal history's journal has the replay's replies.
pub fn legal_has_replay_texts()
    ensures { LegalHasReplayTexts }
{}

/// A history whose journal has the replay's replies is legal.
pub fn replay_is_legal()
    ensures { ReplayIsLegal }
{}

/// A call that an order file or a journal says is one that a record can hold.
pub fn file_calls_fit()
    ensures orders { OrderCallsFit }
    ensures journals { JournalCallsFit }
{}

/// What a run is given, by a journal or by an order file, can be in a journal.
pub fn run_input_fits()
    ensures { RunInputFits }
{}
