//! Epochs of runs of edition 3: runs that begin at the bases of all sites, and chains of them; and their laws, each as a
//! function whose contract is the law and whose body does nothing.
//!
//! A world is what the bases of all sites say together: the state of each site, and on each link the messages under way.
#![tactic(auto)]

ghost use Rattle.cmh_epochs3.specs.Laws.{ChainsAreRuns, ChainsFromFirstAreRuns, IsOneWorld, RunsBeginAtFirst};
ghost use Rattle.cmh_epochs3.specs.Splits.{ExactlyTheWhole, StopsByStampSplit};

use cmh_model3::stop_law;

/// A run is one from the world in which nothing has happened, and a run from there is one.
pub fn first_law()
    ensures runs { RunsBeginAtFirst }
{}

/// A chain of epochs, each a run from the world to which the one before it leads, is one run, and leads to the last world.
///
/// So where it begins at the first world, all laws of runs hold of it.
pub fn chain_law()
    ensures chain { ChainsAreRuns }
    ensures from_first { ChainsFromFirstAreRuns }
{}

/// Runs with the same journals lead to the same world, in whatever order their entries stand.
pub fn world_law()
    ensures one { IsOneWorld }
{}

/// Journals that are split at a consistent stop come from a run exactly where what they have before the stop comes from one
/// that leads to a world, and what they have past it from a run from there. A stop by stamp is such a stop.
///
/// So where each site begins an epoch as its clock comes to one stamp, what comes before it and what follows can be judged apart.
pub fn exact_law()
    ensures exactly { ExactlyTheWhole }
    ensures by_stamp { StopsByStampSplit }
{
    stop_law();
}
