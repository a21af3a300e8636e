//! The exit statuses of the program.

/// All lines were made and printed.
pub(crate) const DONE: u8 = 0;

/// Memory ran out before the first write.
pub(crate) const NO_MEMORY: u8 = 1;

/// The words name no command.
pub(crate) const BAD_WORDS: u8 = 2;

/// The input is refused.
pub(crate) const REFUSED: u8 = 3;

/// The history came to its limit before all lines were made; what was made is printed.
pub(crate) const AT_LIMIT: u8 = 4;

/// The source met a fault.
pub(crate) const SOURCE_FAULT: u8 = 5;

/// The sink met a fault.
pub(crate) const SINK_FAULT: u8 = 6;
