//! What holds of every run. The function here does nothing; its contract is the whole promise.
ghost use Rattle.machine.specs.Promise.{EveryRun};

/// Over any list of calls, accepted or refused, of any admitted table, at the start and after each call: the order of the stack and one
/// owner for each resource, counts that are what the history says, nothing lost, each serial given once and no grant ended twice, and every
/// job that expires has run exactly its C, if no job has run past its C and no stay past its section's length.
pub fn every_run()
    ensures { EveryRun }
{}
