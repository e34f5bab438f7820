//! The text itself, which `checks/identity --write` writes.

/// The bytes of the text.
pub const BUILD_LENGTH: usize = 136;

/// One line: the version, the sum of the sources, and the toolchain.
pub const BUILD: [u8; BUILD_LENGTH] =
    *b"gatepast 0.2.0 sources 18d4ccf8cc571132fb27503b73a8d67b4403b454f8b78e56bd3d901a74a7e9be toolchain rattle-kit-13b logic dac8208d650f15bf\n";
