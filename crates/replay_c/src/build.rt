//! What the archive was made of.
ghost use Rattle.std.specs.Prelude.{◌≡◌};
ghost use Rattle.build_text.specs.Copy.{build_answer, build_copied};

use build_text::copy_build;

/// Writes the text that names the sources and the toolchain that the archive was made of, to as many bytes. The
/// status is 0, or 7 if the memory has another number of bytes.
#[unsafe(no_mangle)]
pub extern "C" fn gp_replay_build(text: &mut [u8]) -> u8
    ensures answer { result ≡ build_answer 0 7 text.old }
    ensures copied { text.new ≡ build_copied text.old }
{
    if copy_build(text) { 0 } else { 7 }
}
