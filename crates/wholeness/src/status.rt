//! The exit status of `--fail`.
ghost use Rattle.std.specs.Prelude.{◌≡◌};
ghost use Rattle.wholeness.specs.Status.{status_of};

/// What was judged, and what was found.
#[derive(Clone, Copy, PartialEq, Eq, Debug)]
pub struct Judged {
    /// How many races were printed.
    pub races: u64,
    /// Whether there was an event.
    pub has_events: bool,
    /// Whether no recording is known to miss something.
    pub is_whole: bool,
}

/// The status if a race was printed.
const RACES: u8 = 3;

/// The status if no race was printed and not everything was judged.
const UNJUDGED: u8 = 4;

/// The exit status. Without `--fail` it is 0, also if there are races.
pub fn status_of(fail: bool, judged: Judged) -> u8
    ensures { result ≡ status_of fail judged }
{
    if !fail {
        return 0;
    }
    if judged.races > 0 {
        return RACES;
    }
    if judged.has_events && judged.is_whole {
        return 0;
    }
    UNJUDGED
}
