//! The calls of a board's members, for C.

pub(crate) mod calling;
pub(crate) mod calling_many;
pub(crate) mod cloning;
pub(crate) mod closing;
pub(crate) mod listing;
pub(crate) mod opening;
pub(crate) mod showing;
pub(crate) mod taking;
