//! Whether a location marks an acquire that only tries to get its lock.
ghost use Rattle.std.specs.Prelude.{◌≡◌, ◌↔◌, IsTrue};
ghost use Rattle.deadlock_triage.specs.Tries.{IsTry, begins_try};

/// Whether the location marks a call that only tries to get its lock, or that waits for a limited time: what follows
/// its first ` < ` is `try`, or begins with `try in ` or `try < `.
pub fn is_try(location: &[u8]) -> bool
    ensures { IsTrue result ↔ IsTry location.now }
{
    for at in 0..location.len() {
        if location[at..].starts_with(b" < ") {
            return begins_try(&location[at + 3..]);
        }
    }
    false
}

// Whether the text is `try`, or begins with `try in ` or `try < `.
fn begins_try(text: &[u8]) -> bool
    ensures { result ≡ begins_try text.now }
{
    if !text.starts_with(b"try") {
        return false;
    }
    text.len() == 3 || text.starts_with(b"try in ") || text.starts_with(b"try < ")
}
