//! Bytes that carry nothing.
ghost use Rattle.std.specs.Prelude.{◌≡◌};
ghost use Rattle.fsoe_base.specs.Bytes.{all_zero};

/// Whether each byte is 0, as padding is, and the data of a FailSafeData frame.
pub fn is_all_zero(bytes: &[u8]) -> bool
    ensures { result ≡ all_zero bytes.now }
{
    bytes.iter().all(|b| *b == 0)
}
