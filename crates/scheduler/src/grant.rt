//! Grants: the right to leave a section, once.
ghost use Rattle.std.specs.Prelude.{◌≡◌};
ghost use Rattle.scheduler.specs.Calls.{leave_number};

use machine::call::Ticket;

/// The right to leave the section that an entry opened.
///
/// A grant can be neither copied nor let go: it is given to `leave`, once. To callers only `enter` gives one; inside this crate `replay` names grants by
/// their numbers. It stays with its holder where its job ended at
/// a deadline and its section was taken back; `leave` then takes it and answers that it is not open.
pub struct Grant {
    pub(crate) ticket: Ticket,
}

impl Grant {
    /// The three numbers of the grant: its task, its section, and how many entries were made before it.
    pub fn ticket(&self) -> Ticket
        ensures { result ≡ self.now.ticket }
    {
        self.ticket
    }
}

/// Why `leave` refuses. What it does not take it hands back.
pub enum LeaveRefusal {
    /// The core is shut; the grant is handed back.
    Shut(Grant),
    /// The grant is open, but not the running task's innermost; it is handed back.
    NotInnermost(Grant),
    /// The grant is not open; it is spent.
    NotOpen,
}

impl LeaveRefusal {
    /// The number of the refusal: 13, 20 or 21.
    pub fn number(&self) -> u32
        ensures { result ≡ leave_number self.now }
    {
        // By cases: a refusal that carries a grant has no discriminant.
        match self {
            LeaveRefusal::Shut(_) => 13,
            LeaveRefusal::NotInnermost(_) => 20,
            LeaveRefusal::NotOpen => 21,
        }
    }
}
