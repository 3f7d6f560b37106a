//! The rows of a base, put into a controller. They are in order, so each row is the last of those so far.

ghost use Rattle.std.specs.Prelude.{◌≡◌, ℕ, [], false, map, IfErr, IfOk};
ghost use Rattle.cmh_controller3.specs.Controller.{home_of, state_of};
ghost use Rattle.cmh_controller3.specs.Restoring.{Takes};
ghost use Rattle.cmh_model3.specs.Lists.{IsAscending};
ghost use Rattle.cmh_segment3.specs.Base.{stamped_pair_place, stamped_place};
ghost use Rattle.cmh_bases3.specs.Bases.{AreDeclared, AreLeft, AreMarks, AreOwed, AreStamps, AreWaits, RefusesUnless};
ghost use Rattle.cmh_bases3.specs.Inner.Lists.{with_declared, with_left, with_marks, with_owed, with_stamps, with_waits};

use cmh_controller3::{Controller, Refusal};
use cmh_segment3::{Pair, Stamped, StampedPair};

/// The stamps of the newest asks, where nobody has asked.
pub fn put_stamps(controller: &mut Controller, rows: &[Stamped]) -> Result<(), Refusal>
    requires ascending { IsAscending (map stamped_place rows.now) }
    requires none { (state_of controller.old).stamp ≡ (λ p. 0) }
    ensures ok { IfOk result (λ _. Takes
        (AreStamps (home_of controller.old) controller.old.site (state_of controller.old).clock rows.now)
        (with_stamps rows.now (state_of controller.old)) controller.old controller.new) }
    ensures refused { IfErr result (RefusesUnless
        (AreStamps (home_of controller.old) controller.old.site (state_of controller.old).clock rows.now)) }
{
    for row in rows {
        controller.put_stamp(row.process, row.stamp)?;
    }
    Ok(())
}

/// The waits, where nobody waits.
pub fn put_waits(controller: &mut Controller, rows: &[StampedPair]) -> Result<(), Refusal>
    requires ascending { IsAscending (map stamped_pair_place rows.now) }
    requires waits { (state_of controller.old).waits ≡ (λ j. []) }
    requires since { (state_of controller.old).since ≡ (λ j k. 0) }
    ensures ok { IfOk result (λ _. Takes
        (AreWaits (home_of controller.old) controller.old.site (state_of controller.old).stamp rows.now)
        (with_waits (home_of controller.old) controller.old.site rows.now (state_of controller.old))
        controller.old controller.new) }
    ensures refused { IfErr result (RefusesUnless
        (AreWaits (home_of controller.old) controller.old.site (state_of controller.old).stamp rows.now)) }
{
    for row in rows {
        controller.put_wait(row.first, row.second, row.stamp)?;
    }
    Ok(())
}

/// Who is leaving whom, where nobody leaves.
pub fn put_leaving(controller: &mut Controller, rows: &[Pair]) -> Result<(), Refusal>
    requires none { (state_of controller.old).leaving ≡ (λ j k. false) }
    ensures ok { IfOk result (λ _. Takes (AreLeft (home_of controller.old) controller.old.site rows.now)
        (with_left rows.now (state_of controller.old)) controller.old controller.new) }
    ensures refused { IfErr result (RefusesUnless (AreLeft (home_of controller.old) controller.old.site rows.now)) }
{
    for row in rows {
        controller.put_leaving(row.first, row.second)?;
    }
    Ok(())
}

/// Who owes whom a reply, besides what is owed already.
pub fn put_owed(controller: &mut Controller, rows: &[Pair]) -> Result<(), Refusal>
    ensures ok { IfOk result (λ _. Takes
        (AreOwed (home_of controller.old) controller.old.site (state_of controller.old).waits rows.now)
        (with_owed rows.now (state_of controller.old)) controller.old controller.new) }
    ensures refused { IfErr result (RefusesUnless
        (AreOwed (home_of controller.old) controller.old.site (state_of controller.old).waits rows.now)) }
{
    for row in rows {
        controller.put_owed(row.first, row.second)?;
    }
    Ok(())
}

/// The marks, where there is none.
pub fn put_marks(controller: &mut Controller, rows: &[StampedPair]) -> Result<(), Refusal>
    requires ascending { IsAscending (map stamped_pair_place rows.now) }
    requires none { (state_of controller.old).marks ≡ (λ k i. 0) }
    ensures ok { IfOk result (λ _. Takes (AreMarks (state_of controller.old).waits rows.now)
        (with_marks rows.now (state_of controller.old)) controller.old controller.new) }
    ensures refused { IfErr result (RefusesUnless (AreMarks (state_of controller.old).waits rows.now)) }
{
    for row in rows {
        controller.put_mark(row.first, row.second, row.stamp)?;
    }
    Ok(())
}

/// Who is declared, where nobody is.
pub fn put_declared(controller: &mut Controller, rows: &[Stamped]) -> Result<(), Refusal>
    requires none { (state_of controller.old).declared ≡ (λ i. false) }
    ensures ok { IfOk result (λ _. Takes (AreDeclared (state_of controller.old).waits rows.now)
        (with_declared rows.now (state_of controller.old)) controller.old controller.new) }
    ensures refused { IfErr result (RefusesUnless (AreDeclared (state_of controller.old).waits rows.now)) }
{
    for row in rows {
        controller.put_declared(row.process)?;
    }
    Ok(())
}
