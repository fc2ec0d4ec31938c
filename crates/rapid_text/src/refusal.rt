//! Why `parse` refuses a trace text, and at which line.

/// What is wrong with a line. `parse` tries `LineTooLong` first, and then the causes in this order. Each variant's
/// comment starts with the number that the program prints.
#[derive(Clone, Copy, PartialEq, Eq, Debug)]
pub enum TextCause {
    /// 1: the line has no `|`.
    NoBar,
    /// 2: the operation has no `(`, or does not end in `)`.
    BadParentheses,
    /// 3: the operation's word is not one of the six.
    UnknownOperation,
    /// 4: the thread or the operation's name is empty.
    EmptyName,
    /// 5: the thread or the operation's name is longer than `MAX_NAME` bytes.
    NameTooLong,
    /// 6: the line, without the blanks at both ends, is longer than `MAX_LINE` bytes.
    LineTooLong,
    /// 7: the line's event would be one more than the `MAX_EVENTS` that a trace may have.
    TooManyEvents,
    /// 8: the line's event would need more threads than the `MAX_THREADS` that a trace may have.
    TooManyNames,
    /// 9: out of memory.
    OutOfMemory,
}

/// The first line that `parse` refuses, and its first cause.
#[derive(Clone, Copy, PartialEq, Eq, Debug)]
pub struct TextRefusal {
    /// The line, counted from 1 over all lines; 0 if memory ran out.
    pub line: u64,
    /// What is wrong with the line.
    pub why: TextCause,
}
