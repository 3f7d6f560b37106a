//! That the numbers of rows are within the limits of the grammar: their types say so.

ghost use Rattle.std.specs.List.{AllByRecursion};
ghost use Rattle.cmh_segment3.specs.Base.{IsPairRow, IsStampedPairRow, IsStampedRow};
ghost use Rattle.cmh_bases3.specs.Inner.Kinds.{HasKinds};

use cmh_segment3::{Base, Pair, Stamped, StampedPair};

/// Of the rows of a base that name processes.
pub(crate) fn kinds_law(base: &Base)
    ensures { HasKinds base.now }
{
    stamped_pairs_law(base.waits.as_slice());
    pairs_law(base.leaving.as_slice());
    pairs_law(base.owed.as_slice());
    stamped_pairs_law(base.dependents.as_slice());
    stamped_law(base.declared.as_slice());
    stamped_law(base.stamps.as_slice());
}

fn pairs_law(rows: &[Pair])
    ensures { AllByRecursion IsPairRow rows.now }
{
    for row in rows {
        let _numbers = (row.first.get(), row.second.get());
    }
}

fn stamped_pairs_law(rows: &[StampedPair])
    ensures { AllByRecursion IsStampedPairRow rows.now }
{
    for row in rows {
        let _numbers = (row.first.get(), row.second.get(), row.stamp.get());
    }
}

fn stamped_law(rows: &[Stamped])
    ensures { AllByRecursion IsStampedRow rows.now }
{
    for row in rows {
        let _numbers = (row.process.get(), row.stamp.get());
    }
}
