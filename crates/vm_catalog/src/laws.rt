//! Laws of the catalog.
ghost use Rattle.vm_catalog.specs.Laws.{ContentsNameOne, SlotsHoldOne, UsedBlocksName, WrittenSlotsAreSlots};

/// A slot holds one list of entries, and contents name one such list; contents with the same used
/// blocks name the same one; and the blocks of a slot, as they are written, hold its entries.
pub fn one_catalog()
    ensures slot { SlotsHoldOne }
    ensures named { ContentsNameOne }
    ensures frame { UsedBlocksName }
    ensures written { WrittenSlotsAreSlots }
{}
