//! The version of the library, and what it was made of.
ghost use Rattle.std.specs.Prelude.{◌≡◌};
ghost use Rattle.build_text.specs.Copy.{build_answer, build_copied};
ghost use Rattle.fsoe_c.specs.Version.{version};

use build_text::copy_build;
use c_values::numbers::{BAD_LENGTH, OK};

/// The version of the library, by which a program sees that header and archive belong together.
#[unsafe(no_mangle)]
pub extern "C" fn gp_version() -> u32
    ensures { result ≡ version }
{
    2
}

/// Writes the text that names the sources and the toolchain that the archive was made of, to as many bytes.
#[unsafe(no_mangle)]
pub extern "C" fn gp_build(text: &mut [u8]) -> u8
    ensures answer { result ≡ build_answer OK BAD_LENGTH text.old }
    ensures copied { text.new ≡ build_copied text.old }
{
    if copy_build(text) { OK } else { BAD_LENGTH }
}
