// A session built from a file of sent messages, for programs in C or Rust. Nothing is asked of a caller. C hands the four texts of a
// key and the three numbers of a shape apart, and `c_import_c` exports the function as it stands, so its types are C's.
#![tactic(auto)]

ghost use Rattle.std.specs.Prelude.{◌≡◌};
ghost use Rattle.store_place.specs.Place.{key_from};
ghost use Rattle.c_import.specs.Answering.{Imports};

use store_areas::Shape;
use store_place::Key;

// The answer in the numbers that C reads: 0, the new session's place, and the lowest number stored of it, 0 for none; or the refusal, with the offset of the
// first faulty message for 28, 29 and 30.
#[repr(C)]
#[derive(Clone, Copy)]
pub struct Built {
    pub refusal: u8,
    pub place: usize,
    pub at: usize,
    pub lowest: u64,
}

// Builds the session of a key from a file of sent messages, as `store_import::import` does.
pub fn wz_import(
    words: &mut [u64],
    bytes: &mut [u8],
    begin: &[u8],
    sender: &[u8],
    target: &[u8],
    suffix: &[u8],
    file: &[u8],
    sessions: u32,
    c: u32,
    m: u32,
) -> Built
    ensures { Imports (record { places = sessions; bytes = c; messages = m }) (key_from begin.now sender.now target.now suffix.now) file.now words.old words.new bytes.old bytes.new result }
{
    let shape = Shape {
        places: sessions,
        bytes: c,
        messages: m,
    };
    let key = Key {
        begin,
        sender,
        target,
        suffix,
    };
    match store_import::import(words, bytes, shape, &key, file) {
        Ok(place) => Built {
            refusal: 0,
            place,
            at: 0,
            lowest: store_lowest::lowest(words, bytes, shape, place).unwrap_or(0),
        },
        Err(f) => Built {
            refusal: f.refusal.number(),
            place: 0,
            at: f.at,
            lowest: 0,
        },
    }
}
