//! What no clause says: that the definition fits the names that recorders write.

use crate::{are_same, is_address, parts_of};

/// Names, each with the texts before and after its NUMBER.
const NUMBERED: [(&[u8], &[u8], &[u8]); 14] = [
    (b"heap:list.c:31#2+16", b"heap:list.c:31", b"+16"),
    (b"heap:list.c:31#2", b"heap:list.c:31", b""),
    (
        b"heap:shop.cpp:40 Item#T3[3].price",
        b"heap:shop.cpp:40 Item",
        b"[3].price",
    ),
    (
        b"heap:a.cpp:7 node#T2.second",
        b"heap:a.cpp:7 node",
        b".second",
    ),
    (
        b"heap:a.cpp:7 node#T7.14.second",
        b"heap:a.cpp:7 node",
        b".second",
    ),
    (b"heap:a.cpp:7 node#T7.14", b"heap:a.cpp:7 node", b""),
    (
        b"heap:a.c:7 config?#3.limit",
        b"heap:a.c:7 config?",
        b".limit",
    ),
    (
        b"heap:main.go:30 main.account#1.balance",
        b"heap:main.go:30 main.account",
        b".balance",
    ),
    (
        b"heap:Node.java:9 Node#T7.3.next",
        b"heap:Node.java:9 Node",
        b".next",
    ),
    (
        b"heap:a.rs:3 {closure#0}#T2+8",
        b"heap:a.rs:3 {closure#0}",
        b"+8",
    ),
    (b"worker#T2:job.next", b"worker", b":job.next"),
    (b"round_of#12:total", b"round_of", b":total"),
    (b"stack:round_of#2-40", b"stack:round_of", b"-40"),
    (b"stack:ns::run#T7.2+8", b"stack:ns::run", b"+8"),
];

/// Names of other forms.
const WHOLE: [&[u8]; 22] = [
    b"",
    b"#2",
    b"hits",
    b"table[3].next",
    b"mine#T1",
    b"of_thread.pairs[1].b#T0",
    b"main:pool.stopping_",
    b"heap:config.h:13 Config.edge",
    b"heap:x.c:5 item[14].next",
    b"heap:x.c:5 item#[3]",
    b"heap:x.c:5 item#T",
    b"heap:x.c:5 item#T.3",
    b"heap:x.c:5 item#2x",
    b"heap:a.rs:3 {closure#0}",
    b"stack:T1+8385000",
    b"stack:main-40",
    b"memory:7ffff7d00000+16",
    b"sync:gate#7",
    b"sync:heap:a.c:3#2",
    b"held:heap:a.c:3#2:T3",
    b"Node#3.next",
    b"round_of#2:",
];

#[test]
fn numbers_are_found(rt: HostRuntime) {
    for (name, before, after) in NUMBERED {
        let (first, second) = parts_of(name);
        assert_eq!(rt; first, before);
        assert_eq!(rt; second, after);
    }
}

#[test]
fn other_names_stay(rt: HostRuntime) {
    for name in WHOLE {
        let (first, second) = parts_of(name);
        assert_eq!(rt; first, name);
        assert!(rt; second.is_empty());
    }
}

#[test]
fn names_are_compared_without_numbers(rt: HostRuntime) {
    assert!(rt;
        are_same(
            b"heap:a.c:7 item#2[3].next",
            b"heap:a.c:7 item#T12.5[3].next"
        )
    );
    assert!(rt; are_same(b"heap:a.c:7 item[3].next", b"heap:a.c:7 item#T12.5[3].next"));
    assert!(rt; are_same(b"heap:a.c:7 item#T12.5[3].next", b"heap:a.c:7 item[3].next"));
    assert!(rt; are_same(b"hits", b"hits"));
    assert!(rt; !are_same(b"heap:a.c:7 item#2[3].next", b"heap:a.c:7 item#2[4].next"));
    assert!(rt; !are_same(b"heap:a.c:7 item#2.next", b"heap:a.c:7 item#2.last"));
    assert!(rt; !are_same(b"heap:a.c:7 item#2.next", b"heap:a.c:8 item#2.next"));
    assert!(rt; !are_same(b"heap:a.c:7 item#2", b"heap:a.c:7 item#2.next"));
    assert!(rt; !are_same(b"mine#T1", b"mine#T2"));
    assert!(rt; !are_same(b"sync:gate#1", b"sync:gate#2"));
}

#[test]
fn addresses_are_known(rt: HostRuntime) {
    assert!(rt; is_address(b"stack:T0+8385360") && is_address(b"stack:main-40"));
    assert!(rt; is_address(b"memory:7ffff7d00000+16"));
    assert!(rt; !is_address(b"heap:a.c:7#2+16") && !is_address(b"stacked") && !is_address(b""));
}
