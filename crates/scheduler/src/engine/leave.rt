//! Leave.
ghost use Rattle.std.specs.Prelude.{◌≡◌, IfErr};
ghost use Rattle.machine.specs.declared.call.Call.TheVariants.{Leave};
ghost use Rattle.machine.specs.Step.{step};
ghost use Rattle.scheduler.specs.Answered.{told};
ghost use Rattle.scheduler.specs.Calls.{of_leave, HandsBack};
ghost use Rattle.scheduler.specs.Moves.{opened_for};
ghost use Rattle.scheduler.specs.View.{table_of};
ghost use Rattle.scheduler.specs.Parts.{state_in};

use super::Engine;
use crate::grant::{Grant, LeaveRefusal};
use crate::stack::Spot;
use machine::call::Ticket;
use queue::{Queue, Released, Waiting};

impl<W: Queue<Entry = Waiting>, R: Queue<Entry = Released>> Engine<W, R> {
    /// Whether the section of a grant is open: the place of its task is noted, so no other job is looked at.
    fn is_open(&self, ticket: Ticket) -> bool
        ensures { result ≡ opened_for ticket self.now.inner }
    {
        let inner = &self.inner;
        match inner.spots.get(ticket.task) {
            Some(Spot::Stacked(at)) => inner.stack[*at].holds(ticket),
            _ => false,
        }
    }

    /// The running job leaves its innermost section, which the grant has to be of.
    pub(crate) fn leave(&mut self, grant: Grant) -> Result<u32, LeaveRefusal>
        ensures records { self.new.records ≡ self.old.records }
        ensures refused { IfErr result (λ r. self.new ≡ self.old) }
        ensures value { of_leave result ≡ told (step (table_of self.old.records) (Leave grant.ticket) (state_in W.Queue R.Queue self.old)).answer }
        ensures back { HandsBack grant result }
        ensures after { state_in W.Queue R.Queue self.new ≡ (step (table_of self.old.records) (Leave grant.ticket) (state_in W.Queue R.Queue self.old)).state }
    {
        if !self.inner.is_innermost(grant.ticket) {
            if self.is_open(grant.ticket) {
                return Err(LeaveRefusal::NotInnermost(grant));
            }
            let Grant { ticket: _ } = grant;
            return Err(LeaveRefusal::NotOpen);
        }
        let Grant { ticket: _ } = grant;
        self.inner.leave();
        self.select();
        Ok(self.inner.running())
    }
}
