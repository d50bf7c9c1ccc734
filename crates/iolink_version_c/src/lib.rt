//! The version of the library for C, which has neither a port nor a device in it: a program that
//! asks for it alone links nothing else.
#![tactic(auto)]

ghost use Rattle.std.specs.Prelude.{◌≡◌};

/// The version that `iolink --version` prints: 10,000 for each of its first number, 100 for each
/// of its second, 1 for each of its third.
const VERSION: u32 = 100;

/// The version of the library, as `IOLINK_VERSION` is that of the headers: 100 for 0.1.0.
#[unsafe(no_mangle)]
pub extern "C" fn iol_version() -> u32
    ensures { result ≡ 100 }
{
    VERSION
}
