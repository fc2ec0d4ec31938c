//! The reasons why a script is refused.

/// What is wrong with a script line. Each cause has the number with which it is printed.
#[derive(Clone, Copy, PartialEq, Eq, Debug)]
pub enum ScriptCause {
    /// 81: there is no second word, or it is not a command word, or it has too few or too many arguments. In a batch,
    /// this may be true of one of its commands.
    BadWord,
    /// 82: an argument is not a number. A number has one or more decimal digits, and its value is at most
    /// 4,294,967,295.
    BadNumber,
    /// 83: the first word is not the number of a client, 1 to 32, or not of one that this script may have.
    BadClient,
    /// 84: an argument is not a name. A name has 1 to 64 bytes: ASCII letters, digits, `_`, `-` and `.`.
    BadName,
    /// 85: the line, without the blanks at both ends, is longer than 65,536 bytes.
    LineTooLong,
    /// 86: out of memory.
    OutOfMemory,
}

/// The first refused line of a script, and its first cause.
#[derive(Clone, Copy, PartialEq, Eq, Debug)]
pub struct ScriptRefusal {
    /// The line, counted from 1 over all lines of the script; 0 if memory ran out.
    pub line: u64,
    /// What is wrong with the line.
    pub why: ScriptCause,
}
