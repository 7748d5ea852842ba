//! The terms of a session.

/// Who may call in a session, and how often.
#[derive(Clone, Copy, Debug, PartialEq, Eq)]
pub struct SessionTerms {
    /// How many members there are, the operator among them.
    pub members: u8,
    /// How many of the day's last calls are the operator's alone.
    pub reserve: u32,
}
