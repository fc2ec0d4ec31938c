//! Laws about merged reports. The functions that are public here do nothing: their contracts are the laws.
ghost use Rattle.std.specs.Prelude.{All};
ghost use Rattle.race_parts.specs.Laws.{MergingIsAUnion};
ghost use Rattle.race_parts.specs.Objects.{merged_lines};
ghost use Rattle.race_parts.specs.ReadBack.{IsPrintable, IsSmall, ReadsAs};

use crate::cells::{Cell, cell_at};
use crate::parts::Parts;

/// The order and the grouping of parts do not matter, nor how often a part is merged.
pub fn merging_is_a_union()
    ensures { MergingIsAUnion }
{}

/// The text that `merged_json` prints is read as the parts that it was printed for.
pub fn reads_back(parts: &Parts, cells: &[Cell<'_>])
    // If each name is UTF-8 and each text is a part: `take_file` gets these parts from the text, each name with its
    // text, and no others. It refuses the text only if memory runs out, if a text has more than 4,194,304 lines, or if
    // a name had another text before.
    ensures same { All IsPrintable parts.now.entries → ReadsAs (merged_lines parts.now.entries cells.now) parts.now }
{
    let _ = parts.len();
    look_at(cells);
}

/// Looks at each cell. By their types its numbers fit 64 bits.
fn look_at(cells: &[Cell<'_>])
    ensures { All IsSmall cells.now }
{
    let mut at = 0;
    'cells: while at < cells.len() {
        let _ = cell_at(cells, at);
        at += 1;
    }
}
