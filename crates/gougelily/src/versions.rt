// The version of the library, for programs that were compiled with another header.
ghost use Rattle.std.specs.Prelude.{◌≡◌, pos};
ghost use Rattle.gougelily.specs.Version.{version};

// Version 1.2.3 is 1,002,003. include/gougelily.h has the same number.
#[unsafe(no_mangle)]
pub extern "C" fn gougelily_version() -> i64
    ensures { result ≡ pos version }
{
    1000003
}
