// What a screen shows, for programs in C or Rust. Nothing is asked of a caller.
// C hands the three numbers of a shape apart.
#![tactic(auto)]

ghost use Rattle.std.proofs.Math.Option.{some};
ghost use Rattle.model_text.specs.Version.{latest};
ghost use Rattle.model_frame.specs.Reading.{decode};
ghost use Rattle.model_screen.specs.FrameText.{frame_line};
ghost use Rattle.model_screen.specs.RefusalText.{refusal_text};
ghost use Rattle.screen_session.specs.Shown.{screen_at};
ghost use Rattle.c_screen.specs.Telling.{TellsScreen};

use c_code::code;
use store_areas::Shape;

// The session at a place as it is shown.
#[unsafe(no_mangle)]
pub extern "C" fn wz_screen_session(
    words: &[u64],
    bytes: &[u8],
    out: &mut [u8],
    sessions: u32,
    c: u32,
    m: u32,
    place: usize,
) -> u64
    ensures { TellsScreen (screen_at (record { places = sessions; bytes = c; messages = m }) words.now bytes.now place) out.old out.new result }
{
    let shape = Shape {
        places: sessions,
        bytes: c,
        messages: m,
    };
    code(screen_session::put_session(words, bytes, shape, place, out))
}

// A frame as it is shown: which it is and where it begins, what it is, and its answer, a refusal or a frame.
#[unsafe(no_mangle)]
pub extern "C" fn wz_screen_frame(
    number: u64,
    offset: u64,
    frame: &[u8],
    refusal: u8,
    reply: &[u8],
    out: &mut [u8],
) -> u64
    ensures { TellsScreen (some (frame_line number offset (decode latest frame.now) refusal (decode latest reply.now))) out.old out.new result }
{
    code(screen_frame::put_frame(number, offset, frame, refusal, reply, out))
}

// A refusal in words, by its number.
#[unsafe(no_mangle)]
pub extern "C" fn wz_screen_refusal(number: u8, out: &mut [u8]) -> u64
    ensures { TellsScreen (some (refusal_text number)) out.old out.new result }
{
    code(screen_refusal::put_refusal(number, out))
}
