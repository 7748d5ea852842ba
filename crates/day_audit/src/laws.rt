//! Laws of audits. Each is what the function's contract says; the functions do nothing.

ghost use Rattle.day_audit.specs.AuditPromises.{LegalExactly, LegalIsLawful, PrintedIsLegal};

/// An audit finds a journal legal exactly where each recorded reply is the lawful one.
pub fn legal_exactly()
    ensures { LegalExactly }
{}

/// What is printed as the journal of a lawful history is audited legal.
pub fn printed_is_legal()
    ensures { PrintedIsLegal }
{}

/// A history whose journal, with all replies, is audited legal is lawful.
pub fn legal_is_lawful()
    ensures { LegalIsLawful }
{}
