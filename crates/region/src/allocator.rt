//! The allocator.
ghost use Rattle.std.specs.Prelude.{◌≡◌, ◌^◌, ◌<◌, ◌≤◌, IfSome};
ghost use base.Fml.{ftrue};
ghost use Rattle.region.specs.Bytes.{rounded};

use crate::memory::Memory;
use std::alloc::{AllocError, Allocator};
use std::cell::Cell;

/// The bytes of a unit, to which each block is aligned.
const UNIT: usize = 16;

/// The bytes that a region takes of its own memory, where it lies.
const PLACE: usize = 32;

/// The bytes that are free, and how many they are. A closed region has none.
#[derive(Drop)]
struct Free {
    memory: Memory,
    size: usize,
    ghost counted: { memory.size ≡ size },
}

/// An allocator over memory of the program's. Collections hold it, or a `&` to it. It gives blocks from the start of its
/// memory to the end, each of whole units of 16 bytes, and never takes one back. Once it is closed, it gives none.
#[derive(Drop)]
pub struct Region {
    free: Cell<Option<Free>>,
}

impl Region {
    /// An allocator over this memory.
    fn new(memory: Memory, size: usize) -> Region
        requires { memory.size ≡ size }
    {
        let free = Cell::new(Some(Free { memory, size }));
        Region { free }
    }

    /// Creates an allocator over `size` bytes of memory that stays for good. It lies in the first 32 bytes itself. Fewer
    /// bytes are refused.
    pub fn forever(memory: Memory, size: usize) -> Result<&'static Region, AllocError>
        requires { memory.size ≡ size }
    {
        if size < PLACE {
            return Err(AllocError);
        }
        let (first, rest) = memory.split(PLACE);
        let region = Region::new(rest, size - PLACE);
        match Box::new(Region::new(first, PLACE), region) {
            Ok(place) => Ok(Box::leak(place)),
            Err(_) => Err(AllocError),
        }
    }

    /// Refuses each request from now on. What was given stays. No contract sees what lies in a cell: this is tried.
    pub fn close(&self) {
        self.free.set(None);
    }

    /// Takes the next `size` bytes off, rounded up to whole units, if so many are left.
    fn take(&self, size: usize, align: usize) -> Option<Memory>
        ensures { IfSome result (λ memory. (memory.size ≡ rounded size) × (size < 2 ^ 63) × (align ≤ 16)) }
    {
        if align > UNIT || size > isize::MAX as usize - UNIT {
            return None;
        }
        let wanted = size.next_multiple_of(UNIT);
        let Free { memory, size: left } = self.free.take()?;
        if left < wanted {
            self.free.set(Some(Free { memory, size: left }));
            return None;
        }
        let (block, memory) = memory.split(wanted);
        self.free.set(Some(Free {
            memory,
            size: left - wanted,
        }));
        Some(block)
    }
}

unsafe impl Allocator for Region {
    ghost dealloc_token = { λ _ _ _. ftrue };

    fn allocate(&self, size: usize, align: usize) -> Result<*mut u8, AllocError> {
        match self.take(size, align) {
            Some(Memory { ptr }) => Ok(ptr),
            None => Err(AllocError),
        }
    }

    unsafe fn deallocate(&self, _ptr: *mut u8, _size: usize, _align: usize) {}
}
