//! What is proved above the code: laws that reading and admission rest on. Each function here does nothing; its contract is the law.
ghost use Rattle.admission.specs.Laws.{OnlyAtDeadlines};
ghost use Rattle.admission.specs.Origin.{ReadIsSound, SoundIsRead};

/// Only deadlines have to be judged: the first instant by which more is asked for than fits is a deadline of some task.
pub fn deadlines_suffice()
    ensures { OnlyAtDeadlines }
{}

/// Records that break no rule are exactly those that some text reads to, but for the names of tasks.
///
/// The records of every table that is read break no rule; and of any records that break none there is a text that reads to just them.
pub fn sound_is_readable()
    ensures read { ReadIsSound }
    ensures written { SoundIsRead }
{}
