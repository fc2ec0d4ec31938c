//! Parts, stored by name.
ghost use Rattle.std.proofs.Props.{props};
ghost use Rattle.race_parts.specs.Kept.{AreKept};

use crate::kept::KeptRow;
use std::collections::BTreeMap;

/// What `triage --json` printed for a trace or a window.
#[derive(Drop)]
pub struct Part {
    /// The printed text.
    pub text: Vec<u8>,
    /// The number of the file that the part came from.
    pub file: u32,
    /// What to keep of its rows; None unless each row is in the form that `triage` prints.
    pub(crate) rows: Option<Vec<KeptRow>>,
    ghost read: { AreKept text.items rows } by { Prim.hlevel props },
}

/// Parts, stored by name.
pub type Parts = BTreeMap<Vec<u8>, Part>;
