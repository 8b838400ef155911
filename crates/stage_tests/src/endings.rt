//! When taking ends.
use crate::making::line;
use ranking::{different_totals, taking_ends};

#[test]
fn totals(rt: HostRuntime) {
    assert_eq!(rt; different_totals(&[]), 0);
    assert_eq!(rt; different_totals(&[line(0, 5)]), 1);
    assert_eq!(rt; different_totals(&[line(0, 5), line(1, 5), line(2, 7)]), 2);
}

#[test]
fn ends(rt: HostRuntime) {
    let lines = [line(0, 5), line(1, 7)];
    assert!(rt; !taking_ends(&lines, 2, 700_000), "an equal floor may tie");
    assert!(rt; taking_ends(&lines, 2, 700_001));
    assert!(rt; taking_ends(&lines, 1, 700_001));
    assert!(rt;
        !taking_ends(&lines, 1, 500_001),
        "the largest total counts"
    );
    assert!(rt; !taking_ends(&lines, 3, 700_001), "a total is wanted yet");
    assert!(rt; !taking_ends(&[], 1, 0));
}
