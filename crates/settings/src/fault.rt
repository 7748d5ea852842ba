//! Why arguments say no settings.

ghost use Rattle.std.specs.Prelude.{◌≡◌};
ghost use Rattle.settings.specs.ArgumentsLine.{arguments_fault_line};
ghost use Rattle.settings.specs.declared.fault.ArgumentsFault.TheVariants.{Parse};

use clap::Error;
use std::fmt;
use std::fmt::{Display, Formatter};

/// Why the arguments of the command line say no settings.
#[derive(Debug, Drop)]
pub enum ArgumentsFault {
    /// They ask for help, or one is none of the options, no number of its range or no form; or memory was
    /// refused. The text is that of `clap`.
    Parse(Error),
    /// `--audit` was given beside `--floor`, `--history` or `--print`. The text is one line.
    AuditNotAlone,
    /// `--live` was given beside `--floor`, `--history`, `--audit` or a form of `--print` other than the lines. The
    /// text is one line.
    LiveNotAlone,
    /// `--results` was given without `--audit`. The text is one line.
    ResultsWithoutAudit,
    /// `--reserve`, `--journal` or `--sync` was given without `--live`. The text is one line.
    WithoutLive,
    /// `--sync` was given without `--journal`. The text is one line.
    SyncWithoutJournal,
}

impl From<Error> for ArgumentsFault {
    ghost from_gives = { λ error fault. fault ≡ Parse error };

    fn from(error: Error) -> ArgumentsFault {
        ArgumentsFault::Parse(error)
    }
}

impl Display for ArgumentsFault {
    ghost output = { arguments_fault_line };

    fn fmt<W: fmt::Write>(&self, f: &mut Formatter<W>) -> fmt::Result {
        match self {
            ArgumentsFault::Parse(error) => error.fmt(f),
            ArgumentsFault::AuditNotAlone => {
                f.write_str("--audit goes with none of --floor, --history and --print")
            }
            ArgumentsFault::LiveNotAlone => {
                f.write_str("--live prints lines, without --floor, --history or --audit")
            }
            ArgumentsFault::ResultsWithoutAudit => f.write_str("--results goes with --audit"),
            ArgumentsFault::WithoutLive => {
                f.write_str("--reserve, --journal and --sync go with --live")
            }
            ArgumentsFault::SyncWithoutJournal => f.write_str("--sync goes with --journal"),
        }
    }
}
