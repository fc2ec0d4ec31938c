//! The form of the arguments that a command takes.

/// What help says about a command, or about the program itself, and the arguments that it takes.
#[derive(Clone, Copy)]
pub(crate) struct Words {
    pub(crate) name: &'static str,
    /// What the command does.
    pub(crate) about: &'static str,
    /// What help says after the arguments.
    pub(crate) example: &'static str,
    pub(crate) words: &'static [Word],
}

/// An argument of a command.
pub(crate) struct Word {
    /// The name by which it is read. An option has two hyphens before its name.
    pub(crate) name: &'static str,
    pub(crate) kind: Kind,
    /// What help says about it. Without such a text, help does not list the argument.
    pub(crate) help: Option<&'static str>,
}

/// The kind of argument.
#[derive(Clone, Copy)]
pub(crate) enum Kind {
    /// A required argument.
    Needed,
    /// One or more required arguments.
    SeveralNeeded,
    /// A flag, with the flags that it conflicts with.
    Flag(&'static [&'static str]),
    /// An option with a text. Help prints this name for the text.
    Text(&'static str),
    /// The same, and it may be repeated.
    Texts(&'static str),
    /// An option with a number.
    Number {
        /// The least value.
        least: u32,
        /// The greatest value.
        most: Most,
        /// The number if the option is missing.
        default: Option<&'static str>,
    },
    /// An option with a number after `=`, or without a number.
    Optional {
        /// The least value.
        least: u32,
        /// The greatest value.
        most: Most,
        /// The number if the option has none.
        missing: &'static str,
    },
}

/// The limit of a number.
#[derive(Clone, Copy)]
pub(crate) enum Most {
    /// The limit of clients.
    Clients,
    /// The limit of workers.
    Workers,
    /// The limit of tries.
    Tries,
    /// The limit of events in a trace.
    Events,
    /// The limit of event numbers, also of traces that are read in windows.
    Numbers,
}

/// The file of a trace. It may be standard input.
pub(crate) const TRACE: Word = Word {
    name: "TRACE",
    kind: Kind::Needed,
    help: Some("File that holds a trace; `-` is standard input"),
};
