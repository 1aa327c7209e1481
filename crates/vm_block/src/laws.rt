//! Laws of the forms: the bytes of a block have one meaning, and what is written is of a form.
ghost use Rattle.vm_block.specs.Laws.{EntriesAreOne, HeadsAreOne, NoLeafIsANode, NodesAreOne, RecordsAreOne, SlotsAreOne, WrittenEntriesAreEntries, WrittenHeadsAreHeads, WrittenNodesAreNodes, WrittenRecordsAreRecords};

/// Bytes spell at most one leaf or one inner block, and never both; at most one head, and at most
/// one entry; and the same blocks spell the entries of at most one slot.
pub fn one_form()
    ensures records { RecordsAreOne }
    ensures node { NodesAreOne }
    ensures apart { NoLeafIsANode }
    ensures head { HeadsAreOne }
    ensures entry { EntriesAreOne }
    ensures slot { SlotsAreOne }
{}

/// What is written is of its form, if what it spells is within its limits.
pub fn written_is_a_form()
    ensures records { WrittenRecordsAreRecords }
    ensures node { WrittenNodesAreNodes }
    ensures head { WrittenHeadsAreHeads }
    ensures entry { WrittenEntriesAreEntries }
{}
