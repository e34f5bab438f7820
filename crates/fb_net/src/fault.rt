//! Why there is no such net.
use failsafe_io::Bit;

/// The first reason for which a net isn't made.
#[derive(Clone, Copy, Debug, PartialEq, Eq)]
pub enum NetFault {
    /// The block may not have so many inputs. Blocks are numbered from 1.
    Arity { block: u16 },
    /// A wire of this block reads the block itself, a later one, or one that doesn't exist. Block 0 stands for a drive,
    /// whose wire reads a block that doesn't exist.
    Later { block: u16 },
    /// A wire names a bit that no input image has.
    NoInput { bit: Bit },
    /// A drive names a bit that no output image has.
    NoOutput { bit: Bit },
    /// Two drives name this bit.
    Twice { bit: Bit },
    /// There was no memory. `Net::new` takes none, so it doesn't give this.
    Memory,
}
