// Lines of lower-case hexadecimal digits, read into bytes and written from them.
#![tactic(auto)]

ghost use Rattle.std.specs.Prelude.{◌≡◌, ◌+◌, ◌*◌, ◌/◌, ◌%◌, ◌≤◌, ◌<◌, length};
ghost use Rattle.model_text.specs.Hex.{digit_value, bytes_from, line_bytes, digit_of, hex_of, refusal_text};
ghost use Rattle.base_hex.specs.Lines.{IsByteOf, ReadsLine, WroteFront, Puts};

// The value of a digit, 16 for a byte that is none, without a jump: with an `Option`, or by a `match`, whether a byte is 0 to 9 or a to f is one, and a line
// of mixed digits takes twice as long.
#[tactic(auto, unfolding(model_text::specs::Hex::digit_value))]
fn digit_value(b: u8) -> u8
    ensures { result ≡ digit_value b }
{
    if (b'0' <= b) & (b <= b'9') {
        b - b'0'
    } else if (b'a' <= b) & (b <= b'f') {
        b - b'a' + 10
    } else {
        16
    }
}

// The byte of two digits.
fn byte_of(high: u8, low: u8) -> Option<u8>
    ensures { IsByteOf high low result }
{
    let high = digit_value(high);
    let low = digit_value(low);
    if (high < 16) & (low < 16) {
        Some(high * 16 + low)
    } else {
        None
    }
}

// The bytes of an even number of digits: how many, at the start of the area. It is written by an index, here and in put_hex, since after a loop over
// an adapter of `iter_mut` or `chunks_exact_mut` a proof knows nothing of the elements.
fn read_digits(line: &[u8], out: &mut [u8]) -> Option<usize>
    requires { length line.now ≤ 2 * length out.old }
    ensures { ReadsLine (bytes_from line.now) out.new result }
{
    let n = line.len() / 2;
    for (i, pair) in line.chunks_exact(2).enumerate() {
        out[i] = byte_of(pair[0], pair[1])?;
    }
    (2 * n == line.len()).then_some(n)
}

// The bytes of a line of at most 16,384 digits: how many, at the start of the area, or none for a bad line.
pub fn read_line(line: &[u8], out: &mut [u8]) -> Option<usize>
    requires { 8192 ≤ length out.old }
    ensures { ReadsLine (line_bytes line.now) out.new result }
{
    match line.len() {
        1..=16_384 => read_digits(line, out),
        _ => None,
    }
}

// The digit of a value below 16.
#[tactic(auto, unfolding(model_text::specs::Hex::digit_of))]
fn digit_of(v: u8) -> u8
    requires { v < 16 }
    ensures { result ≡ digit_of v }
{
    if v < 10 { b'0' + v } else { b'a' + (v - 10) }
}

// Writes the digits of all bytes of src at the start of out.
pub fn put_hex(src: &[u8], out: &mut [u8])
    requires { 2 * length src.now ≤ length out.old }
    ensures { WroteFront (hex_of src.now) out.old out.new }
{
    for (i, &b) in src.iter().enumerate() {
        out[2 * i] = digit_of(b / 16);
        out[2 * i + 1] = digit_of(b % 16);
    }
}

// Writes R, a space and the refusal in decimal at the start of out, and gives how many bytes they are. The refusal comes by its number, as an answer for C has it.
pub fn put_refusal(n: u8, out: &mut [u8]) -> usize
    requires { 4 ≤ length out.old }
    ensures { Puts (refusal_text n) out.old out.new result }
{
    out[0] = b'R';
    out[1] = b' ';
    if n < 10 {
        out[2] = b'0' + n;
        return 3;
    }
    out[2] = b'0' + n / 10;
    out[3] = b'0' + n % 10;
    4
}
