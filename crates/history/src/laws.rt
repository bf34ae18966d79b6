//! The promise over whole runs, of calls and answers alone: no code can dodge it.
ghost use Rattle.history.specs.Promise.{RunsKeepTheirPromises};

/// Whatever is asked, and whoever answers: where each answer is right in its turn, the promises hold of the run.
pub fn runs_keep_their_promises()
    ensures { RunsKeepTheirPromises }
{}
