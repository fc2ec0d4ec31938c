//! What no clause says: how often a writer is called that takes nothing.

use client_scripts::{FromWrite, Sink, write_all};
use std::io;

/// One of std's writers, which takes nothing and counts its calls.
#[derive(Drop)]
struct Full {
    calls: u32,
}

impl io::Write for Full {
    fn write(&mut self, _buf: &[u8]) -> io::Result<usize> {
        self.calls = self.calls.saturating_add(1);
        Ok(0)
    }

    fn flush(&mut self) -> io::Result<()> {
        Ok(())
    }
}

#[test]
fn a_write_that_takes_nothing_has_failed_and_is_not_tried_again(rt: HostRuntime) {
    let mut full = Full { calls: 0 };
    assert!(rt; FromWrite::new(&mut full).write(b"done").is_err());
    assert!(rt; full.calls == 1);
    assert!(rt; write_all(&mut FromWrite::new(&mut full), b"done").is_err());
    assert!(rt; full.calls == 2);
}
