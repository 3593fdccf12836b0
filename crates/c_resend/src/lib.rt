// Several resend ranges together, for C and Rust.
// C hands the three numbers of a shape apart.
#![tactic(auto)]

ghost use Rattle.store_resend.specs.Ranges.{Lists};

use store_areas::Shape;
use store_resend::Listed;

// Lists the stored messages of the session at a place that lie in some range, as `store_resend::list` does.
#[unsafe(no_mangle)]
pub extern "C" fn wz_resend(
    words: &[u64],
    bytes: &[u8],
    ranges: &[u64],
    entries: &mut [u64],
    sessions: u32,
    c: u32,
    m: u32,
    place: usize,
) -> Listed
    ensures { Lists (record { places = sessions; bytes = c; messages = m }) words.now bytes.now place ranges.now entries.old result entries.new }
{
    let shape = Shape {
        places: sessions,
        bytes: c,
        messages: m,
    };
    Listed::of(store_resend::list(words, bytes, shape, place, ranges, entries))
}
