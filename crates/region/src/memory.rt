//! Memory of the program's in which nothing lies.
ghost use Rattle.std.specs.Prelude.{◌≡◌, ℕ, ◌-◌, ◌%◌, ◌≤◌};
ghost use Rattle.region.specs.Bytes.{bytes_at};

use std::marker::Model;

/// Free bytes, as whole units of 16 bytes that are aligned to 16. They belong to whoever holds this, for good. C code
/// hands them in as a pointer.
#[derive(Drop)]
#[repr(C)]
pub struct Memory {
    pub(crate) ptr: *mut u8,
    pub ghost size: { ℕ },
}

impl Model for Memory {
    ghost also_owns = { λ memory. bytes_at memory.ptr memory.size };
}

impl Memory {
    /// Cuts off the first `size` bytes. Returns these, and the rest.
    pub(crate) fn split(self, size: usize) -> (Memory, Memory)
        requires { (size % 16 ≡ 0) × (size ≤ self.size) }
        ensures { (result.0.size ≡ size) × (result.1.size ≡ self.size - size) }
    {
        let Memory { ptr } = self;
        unsafe {
            let rest = ptr.add(size);
            (Memory { ptr }, Memory { ptr: rest })
        }
    }
}
