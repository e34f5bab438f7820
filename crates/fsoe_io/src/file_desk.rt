//! The files of the system as a desk: the trusted edge.
ghost use Rattle.std.specs.Prelude.{◌≡◌, ◌≤◌, ◌<◌, None, [], ◌∷◌, ◌++◌, length, IfOk, IfSome, IsErr, if◌then◌else◌};
ghost use Rattle.fsoe_io.specs.Desk.{failed_loads};
ghost use Rattle.fsoe_io.specs.Calls.{has_failed};
ghost use Rattle.fsoe_io.specs.Faults.{Rose};

use crate::desk::{Desk, LoadFault};
use crate::failed_loads::FailedLoads;
use crate::source::Source;
use crate::streams::StdSource;
use std::alloc::Global;
use std::fs::File;
use std::rt::Files;

/// All bytes that a source has left, where they are at most `limit`.
fn read_within<S: Source>(alloc: Global, source: &mut S, limit: usize) -> Result<Vec<u8>, LoadFault>
    ensures bytes { IfOk result (λ text. IfSome (S.left source.old) (λ left. text.items ≡ left)) }
    ensures within { IfOk result (λ text. length text.items ≤ limit) }
    ensures too_long { result ≡ Err LoadFault.TooLong → IfSome (S.left source.old) (λ left. limit < length left) }
    ensures cause { result ≡ Err LoadFault.Failed → Rose (S.faults source.old) (S.faults source.new) }
{
    let mut text = Vec::new(alloc);
    let mut buffer = [0; 4096];
    loop {
        let Ok(count) = source.read(&mut buffer) else {
            return Err(LoadFault::Failed);
        };
        if count == 0 {
            return Ok(text);
        }
        if count > limit - text.len() {
            return Err(LoadFault::TooLong);
        }
        if text.extend_from_slice(&buffer[..count]).is_err() {
            return Err(LoadFault::Memory);
        }
    }
}

/// All bytes of the file that was opened, where they are at most `limit`. `Failed` where it wasn't opened.
fn read_opened<S: Source + Drop, E: Drop>(
    alloc: Global,
    opened: Result<S, E>,
    limit: usize,
) -> Result<Vec<u8>, LoadFault>
    ensures failed { IsErr opened → result ≡ Err LoadFault.Failed }
    ensures bytes { IfOk opened (λ source. IfOk result (λ text. IfSome (S.left source) (λ left. text.items ≡ left))) }
    ensures within { IfOk result (λ text. length text.items ≤ limit) }
    ensures too_long { IfOk opened (λ source. result ≡ Err LoadFault.TooLong → IfSome (S.left source) (λ left. limit < length left)) }
{
    match opened {
        Ok(mut source) => read_within(alloc, &mut source, limit),
        Err(_) => Err(LoadFault::Failed),
    }
}

/// The bytes of a file, where they are at most `limit`.
fn read_file<R: Files + AllocGlobal>(rt: &R, name: &str, limit: usize) -> Result<Vec<u8>, LoadFault>
    ensures within { IfOk result (λ text. length text.items ≤ limit) }
{
    read_opened(rt.alloc(), File::open(rt, name).map(StdSource::new), limit)
}

/// The files of the system as a desk, each under its path. A load fails if the file doesn't exist or can't be read. The
/// contents are unknown in contracts; the names of failed loads are recorded.
#[derive(Drop)]
pub struct FileDesk<R> {
    rt: R,
    failed: FailedLoads,
}

impl<R: Files + AllocGlobal> FileDesk<R> {
    /// A desk of the files that the runtime opens, with no fault so far.
    pub fn new(rt: R) -> FileDesk<R>
        ensures { result.failed.names ≡ [] }
    {
        let alloc = rt.alloc();
        FileDesk {
            rt,
            failed: FailedLoads::new(alloc),
        }
    }
}

impl<R: Files + AllocGlobal> Desk for FileDesk<R> {
    ghost holds = { λ _ _. None };

    ghost faults = { λ d name. failed_loads d.failed.names name };

    fn load(&mut self, name: &str, limit: usize) -> Result<Vec<u8>, LoadFault>
        ensures within { IfOk result (λ text. length text.items ≤ limit) }
        // A load that fails, and no other, is recorded.
        ensures noted { self.new.failed.names ≡ (if has_failed result then self.old.failed.names ++ name.now ∷ [] else self.old.failed.names) }
    {
        let Ok(copied) = self.failed.room_for(name) else {
            return Err(LoadFault::Memory);
        };
        let loaded = read_file(&self.rt, name, limit);
        self.failed.note(copied, &loaded);
        loaded
    }
}
