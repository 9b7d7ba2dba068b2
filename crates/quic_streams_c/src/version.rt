//! The version of the library.

ghost use Rattle.std.specs.Prelude.{◌≡◌};

// 0.1.0.
const VERSION: u32 = 0x00_01_00;

/// Returns the version: the major number times 2^16, the minor number times 2^8 and the patch number.
#[unsafe(no_mangle)]
pub extern "C" fn qs_version() -> u32
    ensures { result ≡ 0x000100 }
{
    VERSION
}
