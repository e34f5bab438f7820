//! Each frame is one list of bytes, and each list of bytes of its length is one frame.

ghost use Rattle.std.specs.Prelude.{◌≡◌, ℕ, List, length, IsTrue};
ghost use Rattle.fsoe_base.specs.Lengths.{is_length, group_count, frame_len};
ghost use Rattle.fsoe_frame.specs.Layout.{layout};
ghost use Rattle.fsoe_frame.specs.Parts.{frame_of, bytes_of, AreBytes};

/// Every list of bytes with the length of a frame is the layout of exactly one command byte, safe data, list of CRCs
/// and connection id. The call does nothing: the law is its contract.
pub fn one_layout()
    ensures read_back { (cmd conn : ℕ) (load crcs : List ℕ) → IsTrue (is_length (length load)) → length crcs ≡ group_count (length load) → frame_of (length load) (layout cmd load crcs conn) ≡ record { cmd = cmd; load = load; crcs = crcs; conn = conn } }
    ensures counts { (l : ℕ) (bytes : List ℕ) → IsTrue (is_length l) → length bytes ≡ frame_len l → (length (frame_of l bytes).load ≡ l) × (length (frame_of l bytes).crcs ≡ group_count l) }
    ensures written_back { (l : ℕ) (bytes : List ℕ) → IsTrue (is_length l) → length bytes ≡ frame_len l → AreBytes bytes → bytes_of (frame_of l bytes) ≡ bytes }
{}
