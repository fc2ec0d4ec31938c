//! Remembers candidates, so that a candidate that changes nothing is skipped without a look at its row.
ghost use Rattle.std.specs.Prelude.{◌≡◌, ◌⊎◌, true, All, Contains, IfOk};
ghost use Rattle.race_groups.specs.least_pairs.Noted.{IsNothing, HasNote};

use rapid_text::OutOfMemory;
use std::alloc::Global;

// The most slots.
const MOST: usize = 4_194_304;

// The most slots for each pair of places.
const SLOTS_A_PAIR: usize = 3;

/// A candidate: its variable, the places of its two events, and the later event.
#[derive(Clone, Copy)]
pub(crate) struct Note {
    pub(crate) variable: u32,
    pub(crate) first: u32,
    pub(crate) second: u32,
    pub(crate) later: u32,
}

// The content of an empty slot: no event comes after this one.
const NOTHING: Note = Note {
    variable: 0,
    first: 0,
    second: 0,
    later: 4_294_967_295,
};

/// The remembered candidates, the last one for each slot.
#[derive(Drop)]
pub(crate) struct Noted {
    pub(crate) notes: Vec<Note>,
    // The number of places, if each two places have a slot for themselves; otherwise 0.
    width: usize,
}

impl Noted {
    /// Empty slots. `places` has the number of each event's place, and `rows` is the number of conflicting pairs of
    /// places.
    pub(crate) fn new(alloc: Global, places: &[u32], rows: usize) -> Result<Noted, OutOfMemory>
        ensures { IfOk result (λ noted. All IsNothing noted.notes.items) }
    {
        let width = width_of(places, rows.saturating_mul(SLOTS_A_PAIR).min(MOST));
        let slots = if width > 0 {
            width.saturating_mul(width)
        } else {
            rows.min(MOST)
        };
        Ok(Noted {
            notes: vec![in alloc; NOTHING; slots]?,
            width,
        })
    }

    /// Whether it remembers a candidate of the variable and these places whose later event is before `later`.
    pub(crate) fn has(&self, variable: u32, first: u32, second: u32, later: u32) -> bool
        ensures { result ≡ true → HasNote self.now variable first second later }
    {
        let at = slot(first, second, self.width, self.notes.len());
        let Some(note) = self.notes.get(at) else {
            return false;
        };
        note.variable == variable
            && note.first == first
            && note.second == second
            && note.later < later
    }

    /// Remembers a candidate.
    pub(crate) fn note(&mut self, note: Note)
        ensures { All (λ n. (n ≡ note) ⊎ Contains self.old.notes.items n) self.new.notes.items }
    {
        let at = slot(note.first, note.second, self.width, self.notes.len());
        if let Some(slot) = self.notes.get_mut(at) {
            *slot = note;
        }
    }
}

// The number of places, if `slots` slots are enough for each two places; otherwise 0.
fn width_of(places: &[u32], slots: usize) -> usize {
    let mut last = 0;
    for place in places {
        last = last.max(*place);
    }
    let width = (last as usize).saturating_add(1);
    if width.saturating_mul(width) <= slots {
        width
    } else {
        0
    }
}

// The slot of two places among `slots` slots. If there is a slot for each two of `width` places, the slots of one
// later place are side by side.
fn slot(first: u32, second: u32, width: usize, slots: usize) -> usize {
    if width > 0 {
        return (second as usize)
            .wrapping_mul(width)
            .wrapping_add(first as usize);
    }
    let mixed = u64::from(first).wrapping_mul(11_400_714_819_323_198_485) ^ u64::from(second);
    (mixed.wrapping_mul(11_400_714_819_323_198_485) >> 32) as usize % slots.max(1)
}
