//! The commands that run scripts, and those of sessions, each with its arguments.

use crate::words::{Kind, Most, TRACE, Word, Words};

const TRACE_FILE: Word = Word {
    name: "TRACE",
    kind: Kind::Needed,
    help: Some("File that holds a trace"),
};

pub(crate) const REPLAY: Words = Words {
    name: "replay",
    about: "Run a script on a trace, and print the answer to each line",
    example: "For example

  racebench replay trace.std script.txt

Each line of the script has the number of a client, from 1 to 32, a command and its arguments,
such as `1 new A` or `2 add A 3`. Events are counted from 0.",
    words: &[
        TRACE,
        Word {
            name: "SCRIPT",
            kind: Kind::Needed,
            help: Some("File that holds a script; `-` is standard input"),
        },
    ],
};

pub(crate) const SESSION: Words = Words {
    name: "session",
    about: "Interactive session: run commands from standard input, and save them to LOG",
    example: "For example

  racebench session trace.std work.log --client 1

The session answers each line as soon as it reads it, and saves each accepted command to the log.
The next session continues from there, even if this one is killed. Several sessions can share one
log, and each sees what the others did. If the log is missing, the session creates it. It refuses
the log of another trace.",
    words: &[
        TRACE_FILE,
        Word {
            name: "LOG",
            kind: Kind::Needed,
            help: Some("File that holds the log; created if it is missing"),
        },
        Word {
            name: "client",
            kind: Kind::Number {
                least: 1,
                most: Most::Clients,
                default: None,
            },
            help: Some(
                "Client that the lines belong to, 1 to 32; without it each line starts with its client",
            ),
        },
    ],
};

pub(crate) const LOG: Words = Words {
    name: "log",
    about: "Print the log of a session, as a script",
    example: "For example

  racebench log work.log > script.txt
  racebench replay trace.std script.txt

Each entry of the log is one line. `replay` answers the lines as the session did.",
    words: &[Word {
        name: "LOG",
        kind: Kind::Needed,
        help: Some("File that holds a log; `-` is standard input"),
    }],
};

pub(crate) const THREADS: Words = Words {
    name: "threads",
    about: "Run several scripts on one trace at once, each in its own thread",
    example: "For example

  racebench threads trace.std first.txt second.txt

Script i belongs to client i: each of its lines starts with the number i. There can be 31 scripts.
When all have ended, `threads` prints a line `client i` and the answers for each script, and then
the log. The log has the order in which the calls were made, which can differ from run to run.

With `--workers 4`, four threads compute the slices of the first 64 candidates in the background,
and post them as one extra client. A slice is the least that has to come before the pair.",
    words: &[
        TRACE,
        Word {
            name: "SCRIPT",
            kind: Kind::SeveralNeeded,
            help: Some("Files that hold one script each; `-` is standard input"),
        },
        Word {
            name: "workers",
            kind: Kind::Number {
                least: 0,
                most: Most::Workers,
                default: Some("0"),
            },
            help: Some("Threads that slice candidates in the background, 0 to 16"),
        },
        // Only tests use it. They judge how calls are mixed.
        Word {
            name: "room",
            kind: Kind::Number {
                least: 1,
                most: Most::Clients,
                default: None,
            },
            help: None,
        },
    ],
};
