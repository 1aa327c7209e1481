//! Values and listings.
use super::script::{Row, SEVENTEEN, plays_rows};

const ROWS: [Row; 1] = [(
    "gives the value and all records",
    &[
        SEVENTEEN,
        "
        get 17 -> 240*v
        get 18 -> ~
        put 9 x
        list -> 1=240*v 2=240*v 3=240*v 4=240*v 5=240*v 6=240*v 7=240*v 8=240*v 9=x 10=240*v 11=240*v 12=240*v 13=240*v 14=240*v 15=240*v 16=240*v 17=240*v",
    ],
)];

#[test]
fn gives_the_value_and_all_records(rt: HostRuntime) {
    plays_rows(&rt, &ROWS);
}
