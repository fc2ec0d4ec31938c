//! Which word names which call or command.
ghost use Rattle.std.specs.Prelude.{◌≡◌};
ghost use Rattle.script_language.specs.Scripts.{verb_of};

/// The kind of command with a word.
#[derive(Clone, Copy, PartialEq, Eq, Debug)]
pub enum CommandVerb {
    /// `new`
    New,
    /// `add`
    Add,
    /// `back`
    Back,
    /// `swap`
    Swap,
    /// `branch`
    Branch,
    /// `drop`
    Drop,
    /// `adopt`
    Adopt,
}

/// The kind of call with a word.
#[derive(Clone, Copy, PartialEq, Eq, Debug)]
pub enum Verb {
    /// The word of a command.
    Do(CommandVerb),
    /// `batch`
    Batch,
    /// `undo`
    Undo,
    /// `propose`
    Propose,
    /// `show`
    Show,
    /// `list`
    List,
    /// `races`
    Races,
}

/// The kind of call with this word.
pub(crate) fn verb_with(word: &[u8]) -> Option<Verb>
    ensures { result ≡ verb_of word.now }
{
    let verb = if word == b"new".as_slice() {
        Verb::Do(CommandVerb::New)
    } else if word == b"add".as_slice() {
        Verb::Do(CommandVerb::Add)
    } else if word == b"back".as_slice() {
        Verb::Do(CommandVerb::Back)
    } else if word == b"swap".as_slice() {
        Verb::Do(CommandVerb::Swap)
    } else if word == b"branch".as_slice() {
        Verb::Do(CommandVerb::Branch)
    } else if word == b"drop".as_slice() {
        Verb::Do(CommandVerb::Drop)
    } else if word == b"adopt".as_slice() {
        Verb::Do(CommandVerb::Adopt)
    } else if word == b"batch".as_slice() {
        Verb::Batch
    } else if word == b"undo".as_slice() {
        Verb::Undo
    } else if word == b"propose".as_slice() {
        Verb::Propose
    } else if word == b"show".as_slice() {
        Verb::Show
    } else if word == b"list".as_slice() {
        Verb::List
    } else if word == b"races".as_slice() {
        Verb::Races
    } else {
        return None;
    };
    Some(verb)
}
