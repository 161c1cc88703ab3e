//! The version of the library.
ghost use Rattle.std.specs.Prelude.{◌≡◌};
ghost use Rattle.bac_c.specs.declared.version.TheConstants as code;

/// The version: 10,000 times the major number, 100 times the minor one, and the patch. A program that was written for an earlier minor number works with this
/// library.
pub const VERSION: u32 = 10_500;

/// The version of the library that is linked, as the header's `BAC_VERSION` is that of the header.
#[unsafe(no_mangle)]
pub extern "C" fn bac_version() -> u32
    ensures { result ≡ code.VERSION }
{
    VERSION
}
