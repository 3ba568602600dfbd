//! Why a line has no answer.
use lines::WordError;
use std::fmt;

/// The line is no case.
#[derive(Clone, Copy, Debug, PartialEq, Eq)]
pub(crate) struct NoCase;

impl From<WordError> for NoCase {
    fn from(_e: WordError) -> NoCase {
        NoCase
    }
}

// Never: before each answer there is room for the longest.
impl From<fmt::Error> for NoCase {
    fn from(_e: fmt::Error) -> NoCase {
        NoCase
    }
}
