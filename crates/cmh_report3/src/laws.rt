//! The laws of reports: what a report on a run tells of those that are declared, and what is told of each declaration.

ghost use Rattle.cmh_report3.specs.Laws.{CyclesStandOrAreLeft, EachHasCycle, EachHasLeaver, EachIsDeclaredThere, EachLayOnCycle, EachWasDeclaredThere, EachWasLeftByMember};

/// Of each declared process a report on a run tells the stop of an entry that declares it, the last one, and a cycle of
/// waits on which it lay there. Where none of these cycles stands any more, the report names a member that has withdrawn
/// from its next since.
///
/// So a report never says `no cycle`, and never `left by nobody`. It is so since no wait of a cycle of a stop ends past the
/// stop as long as no member withdraws from its next.
pub fn report_law()
    ensures declared { EachWasDeclaredThere }
    ensures cycle { EachLayOnCycle }
    ensures left { EachWasLeftByMember }
    ensures stands { CyclesStandOrAreLeft }
{}

/// Of each declaration of a run it is told at which stop it was, and a cycle of waits on which the process lay there. Where
/// none of these cycles stands any more, a member is named that has withdrawn from its next since.
///
/// So of no declaration it is told `no cycle`, nor `left by nobody`.
pub fn declarations_law()
    ensures declared { EachIsDeclaredThere }
    ensures cycle { EachHasCycle }
    ensures left { EachHasLeaver }
{}
