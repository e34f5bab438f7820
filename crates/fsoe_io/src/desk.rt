//! Texts under names, as files are.
ghost use Rattle.std.specs.Prelude.{◌≡◌, ◌≢◌, ◌≤◌, ◌<◌, List, ℕ, false, length, IfOk, IfSome};
ghost use Rattle.std.specs.declared.option.Option.{Option};
ghost use Rattle.std.specs.Io.KnownBytes.{Keeps};
ghost use Rattle.fsoe_io.specs.Calls.{has_failed};
ghost use Rattle.fsoe_io.specs.Faults.{Rose};

/// Why a text wasn't loaded.
#[derive(Clone, Copy, Debug, PartialEq, Eq)]
pub enum LoadFault {
    /// Loading failed, or the name doesn't exist.
    Failed,
    /// The text under this name is longer than the limit.
    TooLong,
    /// Memory ran out.
    Memory,
}

/// A store of texts by name, as a directory of files is.
pub trait Desk {
    /// The bytes under a name, if known. Once known they stay known.
    ghost holds: { Self → List ℕ → Option (List ℕ) };

    /// How often loads of a name failed. The count never falls, and only a load of this name changes it.
    ghost faults: { Self → List ℕ → ℕ };

    /// Returns the bytes under the name. `TooLong` if and only if loading didn't fail and they are more than `limit`.
    /// The count of this name rises by one with `Failed`, unless it is 2^64 - 1, and stays else. `Memory` if there is
    /// none for the bytes.
    fn load(&mut self, name: &str, limit: usize) -> Result<Vec<u8>, LoadFault>
        ensures bytes { IfOk result (λ text. IfSome (holds self.old name.now) (λ held. text.items ≡ held)) }
        ensures within { IfOk result (λ text. length text.items ≤ limit) }
        ensures too_long { result ≡ Err LoadFault.TooLong → IfSome (holds self.old name.now) (λ held. limit < length held) }
        ensures told { (any : List ℕ) → Keeps (holds self.old any) (holds self.new any) }
        ensures later { faults self.old name.now ≤ faults self.new name.now }
        ensures others { (other : List ℕ) → other ≢ name.now → faults self.new other ≡ faults self.old other }
        ensures cause { result ≡ Err LoadFault.Failed → Rose (faults self.old name.now) (faults self.new name.now) }
        ensures stayed { has_failed result ≡ false → faults self.new name.now ≡ faults self.old name.now };
}
