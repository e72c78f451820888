//! The instants that are judged.
ghost use Rattle.std.specs.Prelude.{◌≤◌};
ghost use Rattle.admission.specs.Verdict.{horizon};

/// An instant no later than the horizon.
#[derive(Clone, Copy)]
pub struct Instant {
    pub ticks: u32,
    ghost near: { ticks ≤ horizon },
}
