//! Laws of the model. Each function does nothing: its contract is the law, and so the law is proved
//! for every tree, map or list of commands.
ghost use Rattle.vm_types.specs.Laws.{StepsKeepTreesWellFormed, MergesAreThreeWay, MergesAreSymmetric, MergesTakeTheSmallerSide, DeltasTellEquality, DiffsArePartwise, StoresOnlyGrow, AlternativesAreIsolated, ChangesBeginAtBases};

/// Names stay distinct, parents stay earlier, and `top` stays first and keeps the empty base.
pub fn steps_keep_trees_well_formed()
    ensures { StepsKeepTreesWellFormed }
{}

/// Absence counts as a value, also in a conflict.
pub fn merges_are_three_way()
    ensures { MergesAreThreeWay }
{}

/// If each conflict is settled, a merge brings what the parent changed into the alternative's map,
/// or what it keeps of the alternative's changes into the parent's: the result is the same.
pub fn merges_are_symmetric()
    ensures { MergesAreSymmetric }
{}

/// A merge makes no more changes than lead to its result from either side's map.
pub fn merges_take_the_smaller_side()
    ensures { MergesTakeTheSmallerSide }
{}

/// A value that was written again is no difference.
pub fn deltas_tell_equality()
    ensures { DeltasTellEquality }
{}

/// The differences in a part are the differences of the whole that lie in it.
pub fn diffs_are_partwise()
    ensures { DiffsArePartwise }
{}

/// No command takes blocks away from the committed state. The working state loses blocks only by a
/// Rollback, which goes back to the committed number.
pub fn stores_only_grow()
    ensures { StoresOnlyGrow }
{}

/// Many editors work on one store, each in an alternative of their own.
pub fn alternatives_are_isolated()
    ensures { AlternativesAreIsolated }
{}

/// An alternative's changes are the differences from its base to what it shows. The base of `top`
/// is empty.
pub fn changes_begin_at_bases()
    ensures { ChangesBeginAtBases }
{}
