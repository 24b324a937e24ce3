//! The version of the library.
ghost use Rattle.std.specs.Prelude.{◌≡◌};
ghost use Rattle.niss_c.specs.Version.{version};

/// The version as one number: 10000 times the major one, 100 times the minor one, and the last. `tools/version` writes
/// it.
const VERSION: u32 = 30200;

/// The version of the library as one number, such as 10200 for 1.2.0.
#[unsafe(no_mangle)]
pub extern "C" fn nissy_version() -> u32
    ensures { result ≡ version }
{
    VERSION
}
