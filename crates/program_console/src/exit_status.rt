//! The exit statuses.

/// The exit status if all lines were accepted, or a tool's input, or a survey found nothing amiss.
pub const ALL_ACCEPTED: u8 = 0;

/// The exit status if a line was refused, or a tool's input, or a survey found something amiss.
pub const SOME_REFUSED: u8 = 1;

/// The exit status if the arguments are wrong, the run did not come to its end, or a file of a survey
/// could not be processed.
pub const NOT_RUN: u8 = 2;
