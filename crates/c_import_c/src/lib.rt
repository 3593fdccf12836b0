// A session built from a file of sent messages, for programs in C or Rust: the function of `c_import` under the same name.
// C hands the four texts of a key apart.
#![tactic(auto)]

ghost use Rattle.store_place.specs.Place.{key_from};
ghost use Rattle.c_import.specs.Answering.{Imports};

use c_import::Built;

// Builds the session of a key from a file of sent messages, as `store_import::import` does.
#[unsafe(no_mangle)]
pub extern "C" fn wz_import(
    words: &mut [u64],
    bytes: &mut [u8],
    begin: &[u8],
    sender: &[u8],
    target: &[u8],
    suffix: &[u8],
    file: &[u8],
    sessions: u32,
    c: u32,
    m: u32,
) -> Built
    ensures { Imports (record { places = sessions; bytes = c; messages = m }) (key_from begin.now sender.now target.now suffix.now) file.now words.old words.new bytes.old bytes.new result }
{
    c_import::wz_import(
        words, bytes, begin, sender, target, suffix, file, sessions, c, m,
    )
}
