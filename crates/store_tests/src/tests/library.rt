//! The smallest complete use of the library.
use std::alloc::Global;
use std::test::Fail;
use vm_disk::MemDisk;
use vm_store::{format, open};
use vm_types::{Command, Key, Name, Refusal, Value, ValueRef};

fn first_record(alloc: Global) -> Result<Option<Value>, Refusal> {
    let (Some(alt), Some(value)) = (Name::new(b"top"), ValueRef::new(b"duct")) else {
        return Ok(None);
    };
    let (table, number) = (7, 1);
    let key = Key { table, number };
    let disk = MemDisk::new(alloc, 64).map_err(|_| Refusal::Memory)?;
    let disk = format(disk, 64).map_err(|refused| refused.1)?;
    let mut store = open(alloc, disk).map_err(|refused| refused.1)?;
    let put = store.apply(&Command::Put { alt, key, value });
    let commit = store.apply(&Command::Commit);
    let disk = store.close();
    put.and(commit)?;
    let mut store = open(alloc, disk).map_err(|refused| refused.1)?;
    let found = store.get(&alt, key);
    let _disk = store.close();
    found
}

#[test]
fn a_record_is_there_after_a_commit_and_an_opening(rt: HostRuntime) -> Result<(), Fail> {
    assert_eq!(rt; first_record(rt.alloc()), Ok(Value::new(b"duct")));
    Ok(())
}
