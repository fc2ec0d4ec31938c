//! A picture of the schedule that shows a pair, as SVG.

mod accesses;
mod arrows;
mod canvas;
mod choosing;
mod class;
mod columns;
mod drawing;
mod head;
mod labels;
mod layout;
mod pieces;
mod rows;
mod shades;
mod shapes;
mod style;

pub use class::Class;
pub use drawing::{figure_text, picture_text};
