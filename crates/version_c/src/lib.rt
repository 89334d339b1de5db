// The library's version for C, in an archive member of its own, so that each part can be linked without the others.
#![tactic(auto)]

ghost use Rattle.std.specs.Prelude.{◌≡◌};
ghost use Rattle.version_c.specs.Version.{harsolvek_version};

// A byte each for its three numbers, the first one the highest (include/harsolvek.h).
#[unsafe(no_mangle)]
pub extern "C" fn harsolvek_version() -> u64
    ensures { result ≡ harsolvek_version }
{
    0x01_0100
}
