// Fields of a FIX message: where one begins and ends, its tag, a value as a number, the sum of bytes.
#![tactic(auto)]

ghost use Rattle.std.specs.Prelude.{◌≡◌, ℕ, ◌+◌, ◌-◌, ◌*◌, ◌%◌, ◌<◌, ◌≤◌, min, true, false, not, nat_eq, ◌||◌, [], ◌∷◌, length, take, drop};
ghost use Rattle.std.specs.List.{prefix_len, fold};
ghost use Rattle.std.specs.Char.{is_ascii_digit};
ghost use Rattle.model_session.specs.Session.{top};
ghost use Rattle.model_fix.specs.Field.{digits, same_text};
ghost use Rattle.model_fix.specs.Message.{total};
ghost use Rattle.fix_field.specs.Reading.{part, until_end, FreeRun, Reaches, ReadsNumber, FieldAt, TaggedAt, IsTag, Closes};

// Where a field's `=` stands, and where it ends, past its byte 01.
#[derive(Clone, Copy)]
pub struct FixField {
    pub eq: usize,
    pub end: usize,
}

// How many digits the text begins with.
fn digits(text: &[u8]) -> usize
    ensures { result ≡ prefix_len (λ b. is_ascii_digit b) text.now }
{
    text.iter().take_while(|b| b.is_ascii_digit()).count()
}

// How many bytes stand before the first byte 01; byte by byte.
fn until_end(text: &[u8]) -> usize
    ensures { result ≡ prefix_len (λ b. not (nat_eq b 1)) text.now }
{
    text.iter().take_while(|b| **b != 1).count()
}

// None of a block's bytes is a byte 01. All are looked at, without leaving early: this becomes vector code.
fn is_free(block: &[u8]) -> bool
    ensures { result ≡ not (fold (λ found b. found || nat_eq b 1) false block.now) }
{
    !block.iter().fold(false, |found, b| found | (*b == 1))
}

// How many blocks of 32 bytes without a byte 01 the text begins with.
fn free_blocks(text: &[u8]) -> usize
    ensures within { 32 * result ≤ length text.now }
    ensures free { (k : ℕ) → k < result → not (fold (λ found b. found || nat_eq b 1) false (take 32 (drop (k * 32) text.now))) ≡ true }
{
    text.chunks_exact(32)
        .take_while(|block| is_free(block))
        .count()
}

// Past the blocks of 32 bytes from `from` on that have no byte 01.
fn skip_blocks(file: &[u8], from: usize) -> usize
    requires { from ≤ length file.now }
    ensures { Reaches file.now from result }
{
    from + 32 * free_blocks(&file[from..])
}

// Where the next byte 01 stands at or after `from`, or the end of the file: most values are short, so 32 bytes, four a turn,
// then blocks: with `position` over the 32 a field takes 1.5 times as long. Places are numbers in the whole file, as the import tells them to C: with a slice of the rest each answer would have to be added to where it begins.
pub fn next_end(file: &[u8], from: usize) -> usize
    requires { from ≤ length file.now }
    ensures { result ≡ from + until_end (drop from file.now) }
{
    let mut i = from;
    for _ in 0..8 {
        if file.len() - i < 4 {
            return i + until_end(&file[i..]);
        }
        if file[i] == 1 {
            return i;
        }
        if file[i + 1] == 1 {
            return i + 1;
        }
        if file[i + 2] == 1 {
            return i + 2;
        }
        if file[i + 3] == 1 {
            return i + 3;
        }
        i += 4;
    }
    let j = skip_blocks(file, i);
    j + until_end(&file[j..])
}

// The field whose tag ends at `eq`, if `=`, a value and byte 01 follow.
fn close_field(file: &[u8], eq: usize) -> Option<FixField>
    ensures { Closes file.now eq result }
{
    if file.len() <= eq || file[eq] != b'=' {
        return None;
    }
    let to = next_end(file, eq + 1);
    if to == eq + 1 || to == file.len() {
        return None;
    }
    Some(FixField { eq, end: to + 1 })
}

// The field that begins at `at`.
pub fn find_field(file: &[u8], at: usize) -> Option<FixField>
    ensures { FieldAt file.now at result }
{
    let text = file.get(at..)?;
    let n = digits(text);
    if n == 0 {
        return None;
    }
    let leading_zero = text[0] == b'0';
    if leading_zero {
        return None;
    }
    close_field(file, at + n)
}

// A text of digits as a number, at most 2^64 - 1.
pub fn read_number(text: &[u8]) -> Option<u64>
    ensures { ReadsNumber text.now result }
{
    let mut n: u64 = 0;
    for b in text {
        if !b.is_ascii_digit() {
            return None;
        }
        n = with_digit(n, *b);
    }
    Some(n)
}

// n with the digit b behind it, at most 2^64 - 1.
fn with_digit(n: u64, b: u8) -> u64
    requires le_b { 48 ≤ b }
    requires b_bound { b ≤ 57 }
    ensures { result ≡ min (n * 10 + (b - 48)) top }
{
    n.saturating_mul(10).saturating_add(u64::from(b - b'0'))
}

// The sum of all bytes, modulo 256.
pub fn sum(text: &[u8]) -> u8
    ensures { result ≡ total text.now % 256 }
{
    text.iter().fold(0, |sum: u8, b| sum.wrapping_add(*b))
}

// The tag from `at` to `eq` is this one: by places, as `find_field` gives them.
pub fn is_tag<const N: usize>(file: &[u8], at: usize, eq: usize, tag: &[u8; N]) -> bool
    requires at_lt_eq { at < eq }
    requires eq_in_bounds { eq ≤ length file.now }
    ensures { result ≡ same_text tag.now (part file.now at eq) }
{
    tag.as_slice() == &file[at..eq]
}

// The field that begins at `at`, if it has this tag.
pub fn find_tagged<const N: usize>(file: &[u8], at: usize, tag: &[u8; N]) -> Option<FixField>
    requires tag { IsTag tag.now }
    ensures { TaggedAt tag.now file.now at result }
{
    let text = file.get(at..)?;
    if !text.starts_with(tag.as_slice()) {
        return None;
    }
    close_field(file, at + N)
}
