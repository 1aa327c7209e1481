//! What is behind an open handle.
ghost use Rattle.std.specs.Prelude.{◌≡◌};

use vm_disk::MemDisk;
use vm_store::Store;

/// A store in memory, and the answers to the last lines that it was given.
pub struct Session {
    pub store: Store<MemDisk>,
    pub answers: Vec<u8>,
}

impl Session {
    /// Its store, without the answers.
    pub fn into_store(self) -> Store<MemDisk>
        ensures { result ≡ self.store }
    {
        let Session { store, answers: _ } = self;
        store
    }
}

impl Drop for Session {
    fn drop(self) {
        let Session { store, answers: _ } = self;
        let _disk = store.close();
    }
}
