//! What an audit counts.

ghost use Rattle.std.specs.Prelude.{◌≡◌, ◌<◌, ◌≤◌, ◌-◌, ◌^◌};
ghost use Rattle.day_audit.specs.AuditCounts.{counts_with, first_or, no_counts};

/// What is found of an entry.
#[derive(Clone, Copy)]
pub(crate) enum Finding {
    /// No reply was recorded.
    Silent,
    /// The recorded reply is the lawful one.
    Lawful,
    /// It is another.
    Unlawful,
}

/// What an audit has counted.
#[derive(Clone, Copy, Debug, PartialEq, Eq)]
pub struct Counts {
    /// The entries.
    pub entries: u64,
    /// Those with a recorded reply.
    pub compared: u64,
    /// Those whose recorded reply isn't the lawful one.
    pub unlawful: u64,
    /// The place, from 0, of the first of these.
    pub first_unlawful: Option<u64>,
}

/// What an audit of a copy of a journal has found.
#[derive(Clone, Copy, Debug, PartialEq, Eq)]
pub struct Audited {
    /// What was counted of the entries of its whole lines.
    pub counts: Counts,
    /// How many bytes are behind these lines: those of a broken line, or of a journal's room.
    pub behind: u64,
}

fn first_or(first: Option<u64>, place: u64) -> Option<u64>
    ensures { result ≡ first_or first place }
{
    match first {
        Some(first) => Some(first),
        None => Some(place),
    }
}

impl Counts {
    /// Nothing so far.
    pub(crate) fn none() -> Counts
        ensures { result ≡ no_counts }
    {
        Counts {
            entries: 0,
            compared: 0,
            unlawful: 0,
            first_unlawful: None,
        }
    }

    /// With one more entry, of fewer than 2 ^ 64.
    pub(crate) fn with(self, finding: Finding) -> Counts
        ensures { self.entries < 2 ^ 64 - 1 → self.compared ≤ self.entries → self.unlawful ≤ self.entries
            → result ≡ counts_with self finding }
    {
        let entries = self.entries.saturating_add(1);
        let compared = self.compared.saturating_add(1);
        match finding {
            Finding::Silent => Counts {
                entries,
                compared: self.compared,
                unlawful: self.unlawful,
                first_unlawful: self.first_unlawful,
            },
            Finding::Lawful => Counts {
                entries,
                compared,
                unlawful: self.unlawful,
                first_unlawful: self.first_unlawful,
            },
            Finding::Unlawful => Counts {
                entries,
                compared,
                unlawful: self.unlawful.saturating_add(1),
                first_unlawful: first_or(self.first_unlawful, self.entries),
            },
        }
    }
}
