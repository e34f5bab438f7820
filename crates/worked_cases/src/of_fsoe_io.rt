use fsoe_io::{Failed, Source, StdSource};
use std::io;
use std::io::{ErrorKind, Read};

/// A reader whose first call is interrupted. Each later call gives one byte, the number of the call.
#[derive(Drop)]
struct InterruptedOnce {
    calls: u8,
}

impl Read for InterruptedOnce {
    fn read(&mut self, buffer: &mut [u8]) -> io::Result<usize> {
        self.calls = self.calls.saturating_add(1);
        if self.calls == 1 {
            return Err(io::Error::from(ErrorKind::Interrupted));
        }
        if buffer.is_empty() {
            return Ok(0);
        }
        buffer[0] = self.calls;
        Ok(1)
    }
}

/// A clause says that a failed read counts once. None says that the reader isn't called again for it.
#[test]
fn a_failed_read_is_told_and_not_tried_again(rt: HostRuntime) {
    let mut source = StdSource::new(InterruptedOnce { calls: 0 });
    let mut buffer = [0];
    for (want, byte) in [(Err(Failed), 0), (Ok(1), 2), (Ok(1), 3)] {
        assert_eq!(rt; source.read(&mut buffer), want, "before byte {byte}");
        assert_eq!(rt; buffer, [byte], "each read is one call");
    }
}
