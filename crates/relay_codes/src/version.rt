// The version of the interface, for a program that compares it with the header it was built with.
ghost use Rattle.std.specs.Prelude.{◌≡◌};
ghost use Rattle.relay_codes.specs.Version.{version};

// 10,000 times the major number, 100 times the minor one, and the patch.
#[unsafe(no_mangle)]
pub extern "C" fn relay_version() -> u32
    ensures { result ≡ version }
{
    900
}
