//! The look of the parts of a drawing: a closed list of classes, each of which the style of a picture has.
ghost use Rattle.std.specs.Prelude.{◌≡◌};
ghost use Rattle.explain_report.specs.picture.Shapes.{class_text};

/// The look of a part of a drawing.
#[derive(Clone, Copy, PartialEq, Eq, Debug)]
pub enum Class {
    /// A line with the name of what is below it.
    Name,
    /// A line beside the events.
    Note,
    /// A line with an event, or with a lock that is held before it.
    Event,
    /// A line with one of the two accesses.
    Access,
    /// The box of a run.
    Run,
    /// The box of one of the two accesses.
    Race,
    /// The bar at the edge of a run.
    Edge,
    /// The part of that bar where the thread holds a lock.
    Held,
}

/// The name of the class in the style.
pub(crate) fn name_of(class: Class) -> &'static [u8]
    ensures { result.now ≡ class_text class }
{
    match class {
        Class::Name => b"name",
        Class::Note => b"note",
        Class::Event => b"event",
        Class::Access => b"access",
        Class::Run => b"box",
        Class::Race => b"race",
        Class::Edge => b"edge",
        Class::Held => b"held",
    }
}
