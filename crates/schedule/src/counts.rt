//! The number of events of each thread in a list.
ghost use Rattle.std.specs.Prelude.{◌≡◌, ℕ, ◌≤◌, ◌+◌, ◌-◌, ◌==◌, IfOk, IfErr};
ghost use Rattle.rapid_text.specs.Limits.{event_limit};
ghost use Rattle.schedule.specs.Counts.{count_in, AreByThread, IsPlaceOf, IsGapFor, CountsUp, CountsDown};

use std::alloc::AllocError;

/// The number of events of a thread in the list.
#[derive(Clone, Copy)]
pub(crate) struct ThreadCount {
    pub(crate) thread: u32,
    pub(crate) count: u32,
}

/// The index of the thread's entry, or else the index at which its entry would be.
fn place_of(counts: &[ThreadCount], thread: u32) -> Result<usize, usize>
    requires { AreByThread counts.now }
    ensures place { IfOk result (IsPlaceOf counts.now thread) }
    ensures gap { IfErr result (IsGapFor counts.now thread) }
{
    // If all lower threads have entries, the entry of this thread is at its number.
    let at = thread as usize;
    if at < counts.len() && counts[at].thread == thread {
        return Ok(at);
    }
    counts.binary_search_by_key(&thread, |entry| entry.thread)
}

/// The count of the thread, which is 0 if it has no entry.
pub(crate) fn count_at(counts: &[ThreadCount], thread: u32) -> u32
    requires { AreByThread counts.now }
    ensures { result ≡ count_in counts.now thread }
{
    match place_of(counts, thread) {
        Ok(at) => counts[at].count,
        Err(_) => 0,
    }
}

/// Makes sure that the thread has an entry, and returns its index. All counts stay.
pub(crate) fn make_room(counts: &mut Vec<ThreadCount>, thread: u32) -> Result<usize, AllocError>
    requires { AreByThread counts.old.items }
    ensures order { AreByThread counts.new.items }
    ensures place { IfOk result (IsPlaceOf counts.new.items thread) }
    ensures same { (t : ℕ) → count_in counts.new.items t ≡ count_in counts.old.items t }
{
    match place_of(counts, thread) {
        Ok(at) => Ok(at),
        Err(at) => {
            let entry = ThreadCount { thread, count: 0 };
            let Ok(()) = counts.insert(at, entry) else {
                return Err(AllocError);
            };
            Ok(at)
        }
    }
}

/// Counts one more event of the thread, whose entry is at `at`.
pub(crate) fn count_up(counts: &mut Vec<ThreadCount>, thread: u32, at: usize)
    requires order { AreByThread counts.old.items }
    requires place { IsPlaceOf counts.old.items thread at }
    requires small { count_in counts.old.items thread ≤ event_limit }
    ensures order { AreByThread counts.new.items }
    ensures count { CountsUp counts.old.items counts.new.items thread }
{
    let count = counts[at].count + 1;
    counts[at] = ThreadCount { thread, count };
}

/// Counts one event less of the thread. Its entry stays, so the event fits in again without memory.
pub(crate) fn count_down(counts: &mut Vec<ThreadCount>, thread: u32)
    requires { AreByThread counts.old.items }
    ensures order { AreByThread counts.new.items }
    ensures count { CountsDown counts.old.items counts.new.items thread }
{
    let Ok(at) = place_of(counts, thread) else {
        return;
    };
    let count = counts[at].count.saturating_sub(1);
    counts[at] = ThreadCount { thread, count };
}
