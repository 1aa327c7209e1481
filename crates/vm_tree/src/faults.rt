//! What a call on a tree returns if it has no answer.
ghost use Rattle.std.specs.Prelude.{◌≡◌};
ghost use Rattle.vm_tree.specs.Faults.{refusal_of, refusal_of_list, refusal_of_put};
ghost use Rattle.vm_tree.specs.declared.faults.ListFault.TheVariants as list;
ghost use Rattle.vm_tree.specs.declared.faults.PutFault.TheVariants as put;
ghost use Rattle.vm_tree.specs.declared.faults.TreeFault.TheVariants as tree;

use std::alloc::AllocError;
use vm_disk::DeviceFault;
use vm_types::Refusal;

/// Why a call that reads or writes blocks of a tree gave no answer.
#[derive(Clone, Copy, Debug, PartialEq, Eq)]
pub enum TreeFault {
    /// The device failed in this call.
    Device,
    /// This block is not what a tree has there.
    Damaged(u32),
}

/// Why a put returned no root.
#[derive(Clone, Copy, Debug, PartialEq, Eq)]
pub enum PutFault {
    /// A block could not be read or written, or is not what a tree has there.
    Tree(TreeFault),
    /// The tree has no room for one more record where it belongs.
    Deep,
}

/// Why a call returned no list of what it found in trees.
#[derive(Clone, Copy, Debug, PartialEq, Eq)]
pub enum ListFault {
    /// A block could not be read, or is not what a tree has there.
    Tree(TreeFault),
    /// Memory could not be allocated for the list, or for the notes on the blocks that were met.
    Memory,
}

impl From<DeviceFault> for TreeFault {
    ghost from_gives = { λ _ r. r ≡ tree.Device };

    fn from(_failed: DeviceFault) -> TreeFault {
        TreeFault::Device
    }
}

impl From<TreeFault> for PutFault {
    ghost from_gives = { λ fault r. r ≡ put.Tree fault };

    fn from(fault: TreeFault) -> PutFault {
        PutFault::Tree(fault)
    }
}

impl From<TreeFault> for ListFault {
    ghost from_gives = { λ fault r. r ≡ list.Tree fault };

    fn from(fault: TreeFault) -> ListFault {
        ListFault::Tree(fault)
    }
}

impl From<AllocError> for ListFault {
    ghost from_gives = { λ _ r. r ≡ list.Memory };

    fn from(_refused: AllocError) -> ListFault {
        ListFault::Memory
    }
}

impl From<TreeFault> for Refusal {
    ghost from_gives = { λ fault r. r ≡ refusal_of fault };

    fn from(fault: TreeFault) -> Refusal {
        match fault {
            TreeFault::Device => Refusal::Device,
            TreeFault::Damaged(block) => Refusal::Damaged(block),
        }
    }
}

impl From<PutFault> for Refusal {
    ghost from_gives = { λ fault r. r ≡ refusal_of_put fault };

    fn from(fault: PutFault) -> Refusal {
        match fault {
            PutFault::Tree(fault) => Refusal::from(fault),
            PutFault::Deep => Refusal::Deep,
        }
    }
}

impl From<ListFault> for Refusal {
    ghost from_gives = { λ fault r. r ≡ refusal_of_list fault };

    fn from(fault: ListFault) -> Refusal {
        match fault {
            ListFault::Tree(fault) => Refusal::from(fault),
            ListFault::Memory => Refusal::Memory,
        }
    }
}
