//! The law of trees: the map under a root is the same wherever its blocks have the same bytes.
ghost use Rattle.vm_tree.specs.Laws.{RootsHaveOneMap, TreesLieInTheirBlocks, TreesRise, TreesStandInData};

/// Under one root lies one map in one list of blocks, all of them data blocks; and contents that
/// agree on these blocks have the same tree.
pub fn one_tree()
    ensures one { RootsHaveOneMap }
    ensures placed { TreesStandInData }
    ensures rising { TreesRise }
    ensures frame { TreesLieInTheirBlocks }
{}
