//! A line of a schedule as it is made.
ghost use Rattle.std.specs.Prelude.{◌≡◌, ◌+◌, ◌*◌, ◌≤◌, ◌<◌, [], ◌∷◌, ◌++◌, length, decimal};
ghost use Rattle.hex.specs.Hex.{encode_lower};

use fsoe_io::LineText;
use std::marker::Model;

/// The most bytes of a line, without its newline.
pub const MAX_LINE: usize = 640;

/// A line of a schedule as it is made, without its newline, of at most 640 bytes. In contracts the value is its bytes.
#[derive(Drop)]
pub struct LineBuf {
    text: LineText,
}

impl Model for LineBuf {
    ghost use Rattle.std.specs.Prelude.{◌≤◌, List, ℕ, length};
    ghost use Rattle.schedule_file.specs.declared.line_buf.TheConstants.{MAX_LINE};

    ghost Value = { List ℕ };

    ghost view = { λ b. b.text };

    ghost invariant = { λ b. length b.text ≤ MAX_LINE };
}

impl LineBuf {
    /// No bytes.
    pub fn new() -> LineBuf
        ensures { result ≡ [] }
    {
        LineBuf {
            text: LineText::new(),
        }
    }

    /// Its bytes.
    pub fn bytes(&self) -> &[u8]
        ensures value { result.now ≡ self.now }
        ensures most { length result.now ≤ MAX_LINE }
    {
        self.text.bytes()
    }

    /// Forgets all bytes.
    pub fn clear(&mut self)
        ensures { self.new ≡ [] }
    {
        self.text.clear();
    }

    /// Appends a byte where fewer than 640 stand.
    pub fn push(&mut self, b: u8)
        requires { length self.old < MAX_LINE }
        ensures { self.new ≡ self.old ++ b ∷ [] }
    {
        self.text.push(&[b]);
    }

    /// Appends bytes where there is room for them among 640.
    pub fn push_all(&mut self, piece: &[u8])
        requires { length self.old + length piece.now ≤ MAX_LINE }
        ensures { self.new ≡ self.old ++ piece.now }
    {
        self.text.push(piece);
    }

    /// Appends a number in decimal digits.
    pub(crate) fn push_decimal(&mut self, n: u32)
        requires { length self.old + 20 ≤ MAX_LINE }
        ensures text { self.new ≡ self.old ++ decimal n }
        ensures most { length self.new ≤ length self.old + 20 }
    {
        self.text.push_decimal(u64::from(n));
    }

    /// Appends bytes as lower-case hexadecimal digits, two a byte.
    pub(crate) fn push_hex(&mut self, bytes: &[u8])
        requires { length self.old + 2 * length bytes.now ≤ MAX_LINE }
        ensures { self.new ≡ self.old ++ encode_lower bytes.now }
    {
        self.text.push_hex(bytes);
    }
}

impl Default for LineBuf {
    ghost is_default = { λ b. b ≡ [] };

    fn default() -> LineBuf {
        LineBuf::new()
    }
}
