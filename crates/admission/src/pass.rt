//! The pass that only admission hands out.
ghost use Rattle.std.specs.Prelude.{◌≡◌};

use table::records::{SectionRecord, TaskRecord};

/// Admitted records, lent for reading, and their idle instant. Only `admit` makes one.
///
/// What a pass says of its records is the predicate `Passed`, which whoever takes a pass asks for: a rule of this project keeps it a plain value
/// that is moved, without an invariant of its type.
#[derive(Drop)]
pub struct Pass<'a> {
    pub(crate) tasks: &'a [TaskRecord],
    pub(crate) sections: &'a [SectionRecord],
    pub(crate) idle: u32,
}

impl<'a> Pass<'a> {
    /// The admitted tasks.
    pub fn tasks(&self) -> &'a [TaskRecord]
        ensures { result.now ≡ self.now.tasks.now }
    {
        self.tasks
    }

    /// The sections of the admitted tasks.
    pub fn sections(&self) -> &'a [SectionRecord]
        ensures { result.now ≡ self.now.sections.now }
    {
        self.sections
    }

    /// The least instant by which the tasks ask for just as much time as has passed.
    pub fn idle(&self) -> u32
        ensures { result ≡ self.now.idle }
    {
        self.idle
    }
}
