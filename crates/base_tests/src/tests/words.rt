//! Keys, values, names, refusals and settlements, as they are made, compared and written.
use super::spelled::key;
use std::test::Fail;
use vm_types::{Key, Name, Refusal, Settled, Side, Value};

#[test]
fn keys_go_by_table_then_number_and_are_written_with_a_colon(rt: HostRuntime) -> Result<(), Fail> {
    assert!(rt; Key::default() < key(1, 9));
    assert!(rt; key(1, 9) < key(2, 1));
    assert!(rt; key(2, 1) < key(2, 3));
    assert_eq!(rt; key(2, 1).place(), (2 << 64) + 1);
    let text = format!(in rt.alloc(); "{}", key(7, 1))?;
    assert_eq!(rt; text.as_str(), "7:1");
    Ok(())
}

#[test]
fn value_holds_up_to_4000_bytes(rt: HostRuntime) -> Result<(), Fail> {
    let bytes = [7; 4096];
    for (len, is_value) in [
        (0, true),
        (1, true),
        (240, true),
        (241, true),
        (4000, true),
        (4001, false),
        (4096, false),
    ] {
        let bytes = bytes.get(..len).ok_or("too long")?;
        match Value::new(bytes) {
            Some(value) => assert!(rt; is_value && value.as_bytes() == bytes, "{len}"),
            None => assert!(rt; !is_value, "{len}"),
        }
    }
    assert!(rt; Value::new(b"") == Some(Value::default()));
    let value = Value::new(b"duct").ok_or("refused")?;
    assert!(rt; &value.padded()[..5] == b"duct\0".as_slice());
    assert_eq!(rt; value.padded()[3999], 0);
    assert!(rt; Some(value) != Value::new(b"duc"));
    Ok(())
}

#[test]
fn name_has_1_to_32_letters(rt: HostRuntime) -> Result<(), Fail> {
    let letters = [b'a'; 33];
    for (bytes, is_name) in [
        (&letters[..32], true),
        (b"Az09_-.", true),
        (letters.as_slice(), false),
        (b"", false),
        (b"a b", false),
    ] {
        assert!(rt; Name::new(bytes).is_some() == is_name, "{bytes:?}");
    }
    let name = Name::new(b"ring-2").ok_or("refused")?;
    assert!(rt; name.as_bytes() == b"ring-2".as_slice());
    assert!(rt; &name.padded()[..7] == b"ring-2\0".as_slice());
    let text = format!(in rt.alloc(); "{name} {name:?}")?;
    assert_eq!(rt; text.as_str(), "ring-2 Name(ring-2)");
    // Names are ordered by their bytes.
    let (short, long) = (Name::new(b"a"), Name::new(b"a1"));
    assert!(rt; short < long);
    assert!(rt; short != long);
    assert!(rt; Name::new(b"b") > long);
    Ok(())
}

const KEY: Key = Key {
    table: 7,
    number: 1,
};

const REFUSALS: [(Refusal, u32, &str); 21] = [
    (Refusal::NoSuchAlternative, 1, "1 NoSuchAlternative"),
    (Refusal::AlternativeExists, 2, "2 AlternativeExists"),
    (Refusal::NoSuchCheckpoint, 3, "3 NoSuchCheckpoint"),
    (Refusal::CheckpointExists, 4, "4 CheckpointExists"),
    (Refusal::NoSuchRecord, 5, "5 NoSuchRecord"),
    (Refusal::IsTop, 6, "6 IsTop"),
    (Refusal::HasChildren, 7, "7 HasChildren"),
    (Refusal::NotMerged, 8, "8 NotMerged"),
    (Refusal::Unsettled(1), 9, "9 Unsettled 1"),
    (Refusal::NotInConflict(KEY), 10, "10 NotInConflict 7:1"),
    (Refusal::SettledTwice(KEY), 11, "11 SettledTwice 7:1"),
    (Refusal::TooMany, 12, "12 TooMany"),
    (Refusal::Full, 13, "13 Full"),
    (Refusal::Deep, 14, "14 Deep"),
    (Refusal::Device, 15, "15 Device"),
    (Refusal::Memory, 16, "16 Memory"),
    (Refusal::Failed, 17, "17 Failed"),
    (Refusal::Damaged(34), 18, "18 Damaged 34"),
    (Refusal::NotAStore, 19, "19 NotAStore"),
    (Refusal::AlreadyAStore, 20, "20 AlreadyAStore"),
    (Refusal::BadSize, 21, "21 BadSize"),
];

#[test]
fn refusal_is_written_with_its_number_and_name(rt: HostRuntime) -> Result<(), Fail> {
    for (refusal, code, due) in &REFUSALS {
        assert_eq!(rt; refusal.code(), *code);
        let text = format!(in rt.alloc(); "{refusal}")?;
        assert_eq!(rt; text.as_str(), *due);
    }
    Ok(())
}

#[test]
fn settlements_come_back_in_their_order(rt: HostRuntime) -> Result<(), Fail> {
    let given = [(key(1, 1), Side::Mine), (key(1, 1), Side::Theirs)];
    let settled = Settled::from_vec(given.to_vec(rt.alloc())?);
    assert_eq!(rt; settled.as_slice().len(), 2);
    assert!(rt; settled.into_vec().as_slice() == given.as_slice());
    Ok(())
}
