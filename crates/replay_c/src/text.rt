//! A text in memory as a source.
ghost use Rattle.std.specs.Prelude.{◌≡◌, Some};

use fsoe_io::{Failed, Source};

/// The bytes of a text that are still to come. It never fails.
#[derive(Drop)]
pub(crate) struct Text<'a> {
    left: &'a [u8],
}

impl<'a> Text<'a> {
    /// All bytes of a text.
    pub(crate) fn new(text: &'a [u8]) -> Text<'a>
        ensures { result.left.now ≡ text.now }
    {
        Text { left: text }
    }
}

impl Source for Text<'_> {
    ghost left = { λ s. Some s.left.now };

    ghost faults = { λ _. 0 };

    fn read(&mut self, buffer: &mut [u8]) -> Result<usize, Failed> {
        let count = buffer.len().min(self.left.len());
        buffer[..count].copy_from_slice(&self.left[..count]);
        self.left = &self.left[count..];
        Ok(count)
    }
}
