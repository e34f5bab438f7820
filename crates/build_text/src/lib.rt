//! Which sources and which toolchain an archive or a program was made of, as a text.
#![tactic(auto)]

ghost use Rattle.std.specs.Prelude.{◌≡◌, ◌==◌, length};
ghost use Rattle.build_text.specs.Copy.{build_copied};

mod text;

pub use text::{BUILD, BUILD_LENGTH};

/// Copies the text to `to` if that has its number of bytes. Returns whether it has.
pub fn copy_build(to: &mut [u8]) -> bool
    ensures fits { result ≡ (length to.old == BUILD_LENGTH) }
    ensures copied { to.new ≡ build_copied to.old }
{
    if to.len() != BUILD_LENGTH {
        return false;
    }
    to.copy_from_slice(&BUILD);
    true
}
