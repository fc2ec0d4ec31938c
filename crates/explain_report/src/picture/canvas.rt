//! The canvas of a drawing. It accepts only shapes, so a function that draws cannot write markup.
ghost use Rattle.std.specs.Prelude.{◌≡◌, []};
ghost use Rattle.explain_report.specs.picture.Boxes.{Drew, IsArrow, IsRect, IsWhole};
ghost use Rattle.explain_report.specs.picture.Shapes.{AreShapes};

use crate::picture::class::Class;
use crate::picture::shapes::{Arrow, append_arrow, append_line, append_rect};
use rapid_text::OutOfMemory;
use std::alloc::Global;
use std::marker::Model;

/// A drawing in progress. Contracts see its text so far.
#[derive(Drop)]
pub(crate) struct Canvas {
    text: Vec<u8>,
}

impl Model for Canvas {
    ghost use Rattle.std.specs.Prelude.{List, ℕ};
    ghost use Rattle.explain_report.specs.picture.Shapes.{AreShapes};

    ghost Value = { List ℕ };

    ghost view = { λ c. c.text.items };

    ghost invariant = { λ c. AreShapes c.text.items };
}

impl Canvas {
    /// An empty canvas.
    pub(crate) fn new(alloc: Global) -> Canvas
        ensures { result ≡ [] }
    {
        Canvas {
            text: Vec::new(alloc),
        }
    }

    /// The allocator.
    pub(crate) fn allocator(&self) -> Global {
        *self.text.allocator()
    }

    /// The text of the shapes drawn so far.
    pub(crate) fn bytes(&self) -> &[u8]
        ensures text { result.now ≡ self.now }
        ensures shapes { AreShapes self.now }
    {
        self.text.as_slice()
    }

    /// Draws a rectangle.
    pub(crate) fn rect(
        &mut self,
        class: Class,
        left: u64,
        top: u64,
        width: u64,
        height: u64,
    ) -> Result<(), OutOfMemory>
        ensures { Drew result self.old self.new (IsRect class) }
    {
        let mut shape = Vec::new(self.allocator());
        append_rect(&mut shape, class, left, top, width, height)?;
        self.text.extend_from_slice(shape.as_slice())?;
        Ok(())
    }

    /// Draws a line of text, which may have any bytes.
    pub(crate) fn line(
        &mut self,
        class: Class,
        left: u64,
        base: u64,
        text: &[u8],
    ) -> Result<(), OutOfMemory>
        ensures { Drew result self.old self.new (IsWhole class text.now) }
    {
        let mut shape = Vec::new(self.allocator());
        append_line(&mut shape, class, left, base, text)?;
        self.text.extend_from_slice(shape.as_slice())?;
        Ok(())
    }

    /// Draws an arrow.
    pub(crate) fn arrow(&mut self, arrow: Arrow) -> Result<(), OutOfMemory>
        ensures { Drew result self.old self.new IsArrow }
    {
        let mut shape = Vec::new(self.allocator());
        append_arrow(&mut shape, arrow)?;
        self.text.extend_from_slice(shape.as_slice())?;
        Ok(())
    }
}
