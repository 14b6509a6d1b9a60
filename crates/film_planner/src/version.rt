// The version of the archive, as the header and the shared object count it: raised whenever the
// code of include/film_planner.h changes, or what a call answers.
ghost use Rattle.std.specs.Prelude.{◌≡◌};

pub const VERSION: u64 = 1;

// The archive's version, for a caller to hold against the header's FILM_VERSION.
#[unsafe(no_mangle)]
pub extern "C" fn film_version() -> u64
    ensures { result ≡ 1 }
{
    VERSION
}

// The same by a name that carries the version: the header names it in every file that includes it,
// so a header of another version does not link.
#[unsafe(no_mangle)]
pub extern "C" fn film_archive_of_version_1() -> u64
    ensures { result ≡ 1 }
{
    VERSION
}
