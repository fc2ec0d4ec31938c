//! The program itself: its name, its version, and what help says if no command is named.

use crate::words::Words;

/// The program's name.
pub(crate) const NAME: &str = "racebench";

/// The program's version.
pub(crate) const VERSION: &str = "0.1.0";

/// What the program does.
const ABOUT: &str = "Find the data races of a recorded execution, and show each by a schedule";

/// The line of help before the list of script commands. The list has each command with its arguments and what it does.
pub const LISTED_BEHIND: &[u8] = b"After the client number comes one of these commands:";

const OVERVIEW: &str = "Start with `racebench triage trace.std`. A path `-` is standard input.

Without a command, standard input holds a trace, a line `---` and a script, and racebench prints
the answer to each line of the script. A script line starts with the number of a client, and events
are counted from 0. For example, of

  T1|w(x)|1
  T2|w(x)|2
  ---
  1 new A
  1 races A
  1 add A 1

the answers are `0: done`, `pairs 0-1` and `1: done`. docs/FORMATS.md has the formats of traces and
scripts.

After the client number comes one of these commands:

  new NAME                    makes an empty schedule
  add NAME EVENT              appends an event to a schedule
  back NAME                   removes the last event
  swap NAME POSITION          swaps the event at this position, from 0, with the next
  branch NAME LENGTH NAME     copies the first LENGTH events to a new schedule
  drop NAME                   removes a schedule
  adopt NAME PROPOSAL         replaces the schedule's events by a proposal's
  batch COMMAND ; COMMAND     runs up to 64 of the commands above, all or none
  undo [ENTRY]                undoes the client's latest command, or this one
  propose EVENT EVENT EVENT*  posts a list that shows the pair of the first two
  show NAME                   prints a schedule's events
  list                        prints the names of all schedules
  races NAME                  prints the pairs that a schedule shows";

/// Returns what help says about the joint text and about the lines of a script.
pub fn overview() -> &'static str {
    OVERVIEW
}

/// What help says about the program itself.
pub(crate) fn program_words() -> Words {
    Words {
        name: NAME,
        about: ABOUT,
        example: OVERVIEW,
        words: &[],
    }
}
