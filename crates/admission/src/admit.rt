//! The verdict on a table's records.
ghost use Rattle.std.specs.Prelude.{◌≡◌, IfOk, Ok, Err, MatchResult};
ghost use Rattle.admission.specs.Passed.{Passed};
ghost use Rattle.admission.specs.Verdict.{judged, Admitted, Refused, FitsEver};

use crate::check::Sound;
use crate::pass::Pass;
use crate::refusal::Refusal;
use table::records::{SectionRecord, TaskRecord};

/// Admits records that break no rule and fit at every instant up to their idle instant, and hands out the pass that says so.
///
/// Judging stops at the idle instant; the contract says what that is good for: admitted records fit at every instant, however late.
/// Any other records are refused: by the rules, by the least instant at which they do not fit, or because the horizon comes before
/// the idle instant.
pub fn admit<'a>(
    tasks: &'a [TaskRecord],
    sections: &'a [SectionRecord],
) -> Result<Pass<'a>, Refusal>
    ensures value { MatchResult result (λ p. judged tasks.now sections.now ≡ Ok p.idle) (λ e. judged tasks.now sections.now ≡ Err e) }
    ensures verdict { MatchResult result (λ p. Admitted tasks.now sections.now p.idle) (λ e. Refused tasks.now sections.now e) }
    ensures ever { IfOk result (λ p. FitsEver tasks.now sections.now) }
    ensures passed { IfOk result Passed }
    ensures records { IfOk result (λ p. (p.tasks.now ≡ tasks.now) × (p.sections.now ≡ sections.now)) }
{
    let idle = Sound::new(tasks, sections)?.judge()?.ticks;
    Ok(Pass {
        tasks,
        sections,
        idle,
    })
}
