//! The audit of a journal: each recorded reply against the one that the rules give.
//!
//! `audit_journal` reads a journal, applies its calls to an auction of the same day one by one, and prints each
//! recorded reply that isn't the lawful one, and how many there are. An entry without a recorded reply is applied and
//! not compared. It goes on after a difference, as the calls stay the same. Of a copy that is broken off within a line,
//! or has a journal's room behind its lines, the whole lines are audited.
#![tactic(auto)]

mod counts;
mod fault;
mod findings;
mod laws;
mod printing;
mod results;
mod running;

pub use counts::{Audited, Counts};
pub use fault::AuditFault;
pub use laws::{legal_exactly, legal_is_lawful, printed_is_legal};
pub use running::audit_journal;
