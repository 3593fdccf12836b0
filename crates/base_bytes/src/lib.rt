// Little-endian numbers in a slice of bytes, by one law over the width, and copying.
#![tactic(auto)]

ghost use Rattle.std.specs.Prelude.{ℕ, ◌≡◌, ◌+◌, ◌^◌, ◌<◌, ◌≤◌, [], ◌∷◌, length};
ghost use Rattle.std.proofs.Math.Nat.{zero-lt-suc};
ghost use Rattle.model_frame.specs.Bytes.{le_at, bytes_of};
ghost use Rattle.model_frame.specs.Writing.{blob_bytes};
ghost use Rattle.base_laws.specs.Wrote.{Wrote};
ghost use Rattle.base_bytes.specs.Put.{Put};

pub mod writer;

pub use writer::Writer;

// A number that stands in a slice as `WIDTH` bytes, the lowest first.
pub trait LittleEndian: Copy + Drop {
    ghost WIDTH: { ℕ };

    const WIDTH: usize;

    ghost value: { Self → ℕ };

    fn read_at(buf: &[u8], at: usize) -> Self
        requires { at + WIDTH ≤ length buf.now }
        ensures { value result ≡ le_at WIDTH buf.now at };

    // The position past what is written.
    fn put_at(self, out: &mut [u8], at: usize) -> usize
        requires { at + WIDTH ≤ length out.old }
        ensures wrote { Wrote out.old at (bytes_of WIDTH (value self)) out.new result }
        ensures past { result ≡ at + WIDTH };

    // A number has a byte at least.
    ghost some: { 0 < WIDTH };
}

impl LittleEndian for u8 {
    ghost WIDTH = { 1 };

    const WIDTH: usize = 1;

    ghost value = { λ x. x };

    ghost some = { zero-lt-suc 0 };

    fn read_at(buf: &[u8], at: usize) -> u8 {
        buf[at]
    }

    fn put_at(self, out: &mut [u8], at: usize) -> usize {
        out[at] = self;
        at + 1
    }
}

impl LittleEndian for u16 {
    ghost WIDTH = { 2 };

    const WIDTH: usize = 2;

    ghost value = { λ x. x };

    ghost some = { zero-lt-suc 1 };

    fn read_at(buf: &[u8], at: usize) -> u16 {
        u16::from_le_bytes([buf[at], buf[at + 1]])
    }

    fn put_at(self, out: &mut [u8], at: usize) -> usize {
        store(&self.to_le_bytes(), out, at)
    }
}

impl LittleEndian for u32 {
    ghost WIDTH = { 4 };

    const WIDTH: usize = 4;

    ghost value = { λ x. x };

    ghost some = { zero-lt-suc 3 };

    fn read_at(buf: &[u8], at: usize) -> u32 {
        u32::from_le_bytes([buf[at], buf[at + 1], buf[at + 2], buf[at + 3]])
    }

    fn put_at(self, out: &mut [u8], at: usize) -> usize {
        store(&self.to_le_bytes(), out, at)
    }
}

impl LittleEndian for u64 {
    ghost WIDTH = { 8 };

    const WIDTH: usize = 8;

    ghost value = { λ x. x };

    ghost some = { zero-lt-suc 7 };

    fn read_at(buf: &[u8], at: usize) -> u64 {
        u64::from_le_bytes([
            buf[at],
            buf[at + 1],
            buf[at + 2],
            buf[at + 3],
            buf[at + 4],
            buf[at + 5],
            buf[at + 6],
            buf[at + 7],
        ])
    }

    fn put_at(self, out: &mut [u8], at: usize) -> usize {
        store(&self.to_le_bytes(), out, at)
    }
}

// Puts the bytes of a number where it is to stand: of a length that is known where it is called, so one store.
#[inline(always)]
fn store(s: &[u8], out: &mut [u8], at: usize) -> usize
    requires { at + length s.now ≤ length out.old }
    ensures { Wrote out.old at s.now out.new result }
{
    let end = at + s.len();
    out[at..end].copy_from_slice(s);
    end
}

// Copies s into out from a position on, and gives the position past it. Byte by byte: of a length that isn't known `copy_from_slice` calls `memmove`,
// and the archive for C is to need `memcpy` and `memset` alone.
pub fn copy(s: &[u8], out: &mut [u8], at: usize) -> usize
    requires { at + length s.now ≤ length out.old }
    ensures { Wrote out.old at s.now out.new result }
{
    for (i, &b) in s.iter().enumerate() {
        out[at + i] = b;
    }
    at + s.len()
}

impl Writer<'_> {
    pub fn byte(&mut self, b: u8)
        requires { self.old.at + 1 ≤ length self.old.out.now }
        ensures put { Put self.old (b ∷ []) self.new }
        ensures past { self.new.at ≡ self.old.at + 1 }
    {
        self.out[self.at] = b;
        self.at += 1;
    }

    pub fn number<T: LittleEndian>(&mut self, n: T)
        requires { self.old.at + T.WIDTH ≤ length self.old.out.now }
        ensures put { Put self.old (bytes_of T.WIDTH (T.value n)) self.new }
        ensures past { self.new.at ≡ self.old.at + T.WIDTH }
    {
        self.at = n.put_at(self.out, self.at);
    }

    pub fn bytes(&mut self, s: &[u8])
        requires { self.old.at + length s.now ≤ length self.old.out.now }
        ensures { Put self.old s.now self.new }
    {
        self.at = copy(s, self.out, self.at);
    }

    // A byte that says what follows, and a number.
    pub fn tagged(&mut self, tag: u8, n: u64)
        requires { self.old.at + 9 ≤ length self.old.out.now }
        ensures put { Put self.old (tag ∷ bytes_of 8 n) self.new }
        ensures past { self.new.at ≡ self.old.at + 9 }
    {
        self.byte(tag);
        self.number(n);
    }

    // Bytes with their number before them.
    pub fn blob(&mut self, s: &[u8])
        requires s_in_bounds { self.old.at + (4 + length s.now) ≤ length self.old.out.now }
        requires s_len_bound { length s.now < 2 ^ 32 }
        ensures put { Put self.old (blob_bytes s.now) self.new }
        ensures past { self.new.at ≡ self.old.at + (4 + length s.now) }
    {
        self.number(s.len() as u32);
        self.bytes(s);
    }
}
