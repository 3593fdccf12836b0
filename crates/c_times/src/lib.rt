// Stamps as numbers, for programs in C or Rust: each function has the promise of `times_stamp`, and asks nothing of its caller.
#![tactic(auto)]

ghost use Rattle.std.specs.Prelude.{◌≡◌, length};
ghost use Rattle.model_times.specs.Times.{read, write, lent, area_after};
ghost use Rattle.c_times.specs.Boundary.{numbered_of, returned};

use times_stamp::Moment;

// A stamp's number, in the numbers that C reads: 6 or 33, else 0, whole milliseconds since 1 January 1970 and the remainder in picoseconds.
#[repr(C)]
#[derive(Clone, Copy)]
pub struct Numbered {
    pub refusal: u8,
    pub millis: u64,
    pub picos: u64,
}

#[unsafe(no_mangle)]
pub extern "C" fn wz_stamp_read(stamp: &[u8]) -> Numbered
    ensures { result ≡ numbered_of (read stamp.now) }
{
    match times_stamp::read(stamp) {
        Ok(moment) => Numbered {
            refusal: 0,
            millis: moment.millis,
            picos: moment.picos,
        },
        Err(refusal) => Numbered {
            refusal: refusal.number(),
            millis: 0,
            picos: 0,
        },
    }
}

#[unsafe(no_mangle)]
pub extern "C" fn wz_stamp_write(millis: u64, picos: u64, out: &mut [u8]) -> u64
    ensures code { result ≡ returned (lent (length out.old) (write millis picos)) }
    ensures area { out.new ≡ area_after (lent (length out.old) (write millis picos)) out.old }
{
    c_code::code(times_stamp::write(Moment { millis, picos }, out))
}
