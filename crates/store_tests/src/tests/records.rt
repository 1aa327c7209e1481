//! Records: what is put, got, listed and taken out.
use super::script::{ALONE, CACHED, DUCT, NEW, Row, each, plays_on};
use std::test::Fail;

/// A closed store in which `duct` and the record beside it are committed, in one leaf. Opening it
/// makes five device calls.
pub(super) const TWO_RECORDS: &str = "
    format 64
    open
    put top 7:1 duct
    commit
    put top 7:2 x
    commit
    close
    anew";

const ON_BOTH: &[Row] = &[
    (
        "what is committed is there after opening",
        DUCT,
        "
        open
        get top 7:1 -> duct",
    ),
    (
        "value is lent from its block",
        DUCT,
        "
        open
        look top 7:1 -> duct
        look top 7:2 -> ~
        look nope 7:1 -> error 1 NoSuchAlternative
        new a top
        put a 7:1 pipe
        put a 7:2 ''
        look a 7:1 -> pipe
        look a 7:2 -> ''
        look top 7:1 -> duct
        look top 7:2 -> ~",
    ),
    (
        "greatest key takes the empty value",
        NEW,
        "
        get top 65535:18446744073709551615 -> ~
        put top 65535:18446744073709551615 ''
        get top 65535:18446744073709551615 -> ''
        get top 7:1 -> ~",
    ),
    (
        "what is not committed is gone after closing",
        DUCT,
        "
        open
        put top 7:1 pipe
        get top 7:1 -> pipe
        close
        anew
        open
        get top 7:1 -> duct",
    ),
    (
        "record that is absent from a new store is refused",
        NEW,
        "remove top 0:0 -> error 5 NoSuchRecord",
    ),
    (
        "record that is absent beside another is refused",
        DUCT,
        "
        open
        remove top 0:0 -> error 5 NoSuchRecord
        remove top 7:2 -> error 5 NoSuchRecord
        remove nope 7:1 -> error 1 NoSuchAlternative
        get top 7:1 -> duct",
    ),
];

const IN_MEMORY: &[Row] = &[
    (
        "alternative that is not there is refused",
        NEW,
        "
        get nope 7:1 -> error 1 NoSuchAlternative
        put nope 7:1 duct -> error 1 NoSuchAlternative
        get top 7:1 -> ~
        list top -> none
        list nope -> error 1 NoSuchAlternative",
    ),
    (
        "records are listed by rising keys",
        DUCT,
        "
        open
        put top 65535:0 ''
        put top 1:18446744073709551615 pipe
        put top 0:2 -
        list top -> 0:2=- 1:18446744073709551615=pipe 7:1=duct 65535:0=''",
    ),
    (
        "records are taken out one by one",
        TWO_RECORDS,
        "
        open
        remove top 7:1
        remove top 7:1 -> error 5 NoSuchRecord
        list top -> 7:2=x
        remove top 7:2
        list top -> none
        commit
        close
        open
        list top -> none
        put top 7:2 ''
        list top -> 7:2=''",
    ),
];

#[test]
fn records_are_put_got_listed_and_taken_out(rt: HostRuntime) {
    each(&rt, CACHED, ON_BOTH);
    each(&rt, ALONE, IN_MEMORY);
}

#[test]
fn blocks_are_found_again_over_many_puts(rt: HostRuntime) -> Result<(), Fail> {
    let mut row = String::new(rt.alloc());
    for n in 0..100 {
        write!(row, "put top 7:1 {n}\nget top 7:1 -> {n}\n")?;
    }
    let after = "
        close
        open
        get top 7:1 -> duct";
    plays_on(&rt, ALONE, "many puts", &[DUCT, "open", &row, after]);
    Ok(())
}
