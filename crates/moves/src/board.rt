//! The proposals that schedules may adopt.
ghost use Rattle.std.specs.Prelude.{◌≡◌, ◌<◌, [], ◌∷◌, ◌++◌, length, slice_get, Some, OnOk, OnErr, IfErr};
ghost use Rattle.schedule.specs.Shows.{Shows};
ghost use Rattle.moves.specs.Boards.{IsShown, lent_proposal};

use rapid_text::OutOfMemory;
use schedule::Schedule;
use std::alloc::Global;
use std::marker::Model;

/// A schedule that shows a pair of conflicting events.
#[derive(Drop)]
pub struct Proposal {
    /// One event of the pair.
    pub first: u32,
    /// The other event.
    pub second: u32,
    /// The schedule.
    pub schedule: Schedule,
}

/// A list of proposals, each of which shows its pair. Contracts see it as that list.
#[derive(Drop)]
pub struct Board {
    proposals: Vec<Proposal>,
}

impl Model for Board {
    ghost use Rattle.std.specs.Prelude.{List, All};
    ghost use Rattle.moves.specs.declared.board.Proposal.{Proposal as Proposed};
    ghost use Rattle.moves.specs.Boards.{IsShown};

    ghost Value = { List Proposed };

    ghost view = { λ b. b.proposals.items };

    ghost invariant = { λ b. All IsShown b.proposals.items };
}

impl Board {
    /// The board with no proposals. It takes no memory yet: `alloc` is kept for later.
    pub fn empty(alloc: Global) -> Board
        ensures { result ≡ [] }
    {
        Board {
            proposals: Vec::new(alloc),
        }
    }

    /// Appends a proposal. If memory runs out, returns the schedule.
    pub fn push(
        &mut self,
        first: u32,
        second: u32,
        schedule: Schedule,
    ) -> Result<(), (Schedule, OutOfMemory)>
        requires { Shows schedule.trace.events schedule.events first second }
        ensures ok { OnOk result
            (self.new ≡ self.old ++ record { first = first; second = second; schedule = schedule } ∷ []) }
        ensures err { OnErr result (self.new ≡ self.old) }
        ensures back { IfErr result (λ refused. refused.0 ≡ schedule) }
    {
        let proposal = Proposal {
            first,
            second,
            schedule,
        };
        let Err(failed) = self.proposals.push(proposal) else {
            return Ok(());
        };
        Err((failed.value.schedule, OutOfMemory))
    }

    /// The number of proposals.
    pub fn len(&self) -> usize
        ensures { result ≡ length self.now }
    {
        self.proposals.len()
    }

    /// The proposal of this number: the two events of its pair, and the schedule that shows it.
    pub fn get(&self, at: usize) -> (u32, u32, &Schedule)
        requires { at < length self.now }
        ensures same { slice_get self.now at ≡ Some (lent_proposal result) }
        ensures shows { IsShown (lent_proposal result) }
    {
        let proposal = &self.proposals[at];
        (proposal.first, proposal.second, &proposal.schedule)
    }
}
