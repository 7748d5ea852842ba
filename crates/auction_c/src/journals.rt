//! What the journals' exports do.

pub(crate) mod comparing;
pub(crate) mod days;
pub(crate) mod entries_in;
pub(crate) mod faults;
pub(crate) mod lines;
pub(crate) mod reading;
pub(crate) mod texts;
