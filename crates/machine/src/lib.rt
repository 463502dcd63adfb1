// What a run is: its definition, and what holds of every run.
#![tactic(auto)]

ghost use Rattle.machine.specs.Laws.{LawsOfRuns};

pub mod fault;

/// Runs can be taken in parts, end for good, charge what they execute, do not depend on fuel that they do not use up, and
/// only add to their host and sink.
pub fn laws_of_runs()
    ensures { LawsOfRuns }
{}
