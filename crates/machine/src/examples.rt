//! Examples that the checker computes. The function here does nothing; its contract is the examples.
ghost use Rattle.machine.specs.Worked.{Worked};

/// What the definitions come to on a few small tables, from their text to the verdict and in runs.
pub fn worked_examples()
    ensures { Worked }
{}
