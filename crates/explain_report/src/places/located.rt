//! The location of an event.
ghost use Rattle.std.specs.Prelude.{◌≡◌};
ghost use Rattle.explain_report.specs.places.Located.{location_at};

use event_index::Indexed;

/// The location of the event; empty if the trace lacks the event.
pub fn location_of(indexed: &Indexed, event: u32) -> &[u8]
    ensures { result.now ≡ location_at indexed.now event }
{
    if event >= indexed.len() {
        return b"";
    }
    indexed.trace().raw().location(event)
}
