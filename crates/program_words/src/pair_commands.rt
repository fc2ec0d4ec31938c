//! The commands on a pair of events, each with its arguments.

use crate::words::{Kind, TRACE, Word, Words};

const FIRST: Word = Word {
    name: "A",
    kind: Kind::Needed,
    help: Some("Event, counted from 0, or a location such as count.c:7"),
};

const SECOND: Word = Word {
    name: "B",
    kind: Kind::Needed,
    help: Some("Event, counted from 0, or a location such as count.c:7"),
};

pub(crate) const EXPLAIN: Words = Words {
    name: "explain",
    about: "Explain a pair of events: how it races, or what keeps it apart",
    example: "For example

  racebench explain trace.std 7 12
  racebench explain trace.std count.c:7 count.c:13

Events are counted from 0, in the order of the trace. A location is a file and a line, or a part
that only one line has. Of two locations, `explain` takes the pair of events that `triage` reports.
The first line is the verdict: `race`, with a schedule after which both are next in their threads;
`apart`, with what keeps the two apart in every correct reordering of this trace; or `undecided`.
Apart is about this trace only: each read keeps the write that it saw, and in another run it may see
another one. Two acquires that `deadlocks` lists are explained too: how their threads come to wait
for each other, or why they do not.",
    words: &[
        TRACE,
        FIRST,
        SECOND,
        Word {
            name: "all",
            kind: Kind::Flag(&[]),
            help: Some("Print all runs of the schedule, not only the last ten"),
        },
    ],
};

pub(crate) const WITNESS: Words = Words {
    name: "witness",
    about: "Print the schedule that shows a pair of events",
    example: "For example

  racebench witness trace.std 7 12
  racebench witness trace.std count.c:7 count.c:13

Each line has the number of an event and its line of the trace. After these events, in this order,
both events of the pair are next in their threads. If they are two acquires that `deadlocks` lists,
each of the two threads then waits for the other. The script ends with both acquires, and `replay`
refuses them.",
    words: &[
        TRACE,
        FIRST,
        SECOND,
        Word {
            name: "script",
            kind: Kind::Flag(&[]),
            help: Some("Print a script that builds the schedule"),
        },
        Word {
            name: "std",
            kind: Kind::Flag(&["script"]),
            help: Some("Print the schedule, and then the pair, as a trace"),
        },
        Word {
            name: "svg",
            kind: Kind::Flag(&["script", "std"]),
            help: Some("Print a picture of the schedule, as SVG"),
        },
    ],
};

pub(crate) const USES: Words = Words {
    name: "uses",
    about: "List who else uses the variables of a race, and under which locks",
    example: "For example

  racebench uses trace.std 7 12
  racebench uses trace.std count.c:7 count.c:13

The variables are those on which an access at one of the two locations conflicts with one at the
other. A number means the location of that event. Each location that accesses one of the variables
is listed, reads and writes apart: how many accesses and threads, which locks are held, and whether
all of these accesses come before or after all accesses of the race in every correct reordering.
`holds m` says that each access holds the lock m, and `holds m at 3` that only three do.",
    words: &[TRACE, FIRST, SECOND],
};
