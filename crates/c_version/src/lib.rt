// The version of the boundary, which a program compares with that of the header it was compiled with.
#![tactic(auto)]

ghost use Rattle.std.specs.Prelude.{◌≡◌};
ghost use Rattle.c_version.specs.Version.{version};

// The major is raised with every record, signature and code that changes, the minor with what is added.
const MAJOR: u32 = 1;

const MINOR: u32 = 0;

#[unsafe(no_mangle)]
pub extern "C" fn wz_version() -> u32
    ensures { result ≡ version }
{
    MAJOR * 65_536 + MINOR
}
