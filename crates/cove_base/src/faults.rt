/// What is wrong with a line of a script, or with its text as a whole.
#[derive(Clone, Copy, Debug, PartialEq, Eq)]
pub enum Kind {
    /// The text is longer than its limit; the line is 0.
    TooLong,
    /// A byte is neither a printable ASCII character nor a blank.
    NotAscii,
    /// The first content line does not begin with `board`.
    BadHeader,
    /// The first word is none of the script's words, or not allowed at its place, or a hart's word is none.
    UnknownWord,
    /// A word that should be a number or hex digits is none.
    BadNumber,
    /// There are too few or too many words.
    WrongCount,
    /// A size, a hart, an address or a length is outside the board.
    OutOfBoard,
    /// No line ends the script; the line is the one after the last.
    NoEnd,
}

/// The first faulty line of a script, counted from 1, and the first kind of fault that applies to it.
#[derive(Clone, Copy, Debug, PartialEq, Eq)]
pub struct ScriptFault {
    pub line: u32,
    pub kind: Kind,
}
