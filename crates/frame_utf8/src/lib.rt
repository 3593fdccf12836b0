// UTF-8 by RFC 3629: which slices of bytes are well formed.
#![tactic(auto)]

ghost use Rattle.std.specs.Prelude.{◌≡◌, true, cond, ◌&&◌, List, ◌∷◌, ℕ, ◌+◌, ◌-◌, ◌*◌, ◌%◌, ◌≤◌, ◌<◌, length, drop, get_or, leb};
ghost use Rattle.model_text.specs.Utf8.{lead_length, is_tail, is_scalar, well_formed, utf8};
ghost use Rattle.frame_utf8.specs.Places.{AsciiRun};

// So many leading one bits begin a sequence of as many bytes.
fn begins(n: u32) -> bool
    ensures { result ≡ (leb 2 n && leb n 4) }
{
    (2 <= n) & (n <= 4)
}

// How many bytes a sequence has that begins with a, by the number of leading one bits of a: none, one byte; 2 to 4, that many; 0 where none begins so.
// As an Option, ASCII of 7 to 30 bytes, which most texts of a frame are, took 1.09 to 1.17 times as long; the bar is no longer than before.
fn lead_length(a: u8) -> usize
    ensures { (result ≡ lead_length a) × (result ≤ 4) }
{
    let n = u8::leading_zeros(!a);
    if n == 0 {
        return 1;
    }
    if begins(n) {
        return n as usize;
    }
    0
}

fn wide(b: u8) -> u32
    ensures { result ≡ b }
{
    b as u32
}

// 10xxxxxx
#[tactic(auto, unfolding(model_text::specs::Utf8::is_tail))]
fn is_tail(b: u8) -> bool
    ensures { result ≡ is_tail b }
{
    (0x80 <= b) & (b <= 0xBF)
}

// Not overlong, not above 10FFFF, no surrogate.
#[tactic(auto, unfolding(model_text::specs::Utf8::is_scalar, model_text::specs::Utf8::is_surrogate))]
fn is_fitting(low: u32, c: u32) -> bool
    ensures { result ≡ (leb low c && is_scalar c) }
{
    (low <= c) & ((c <= 0x10FFFF) & !((0xD800 <= c) & (c <= 0xDFFF)))
}

// The code point of 110xxxxx 10xxxxxx: the bits x, put together. The bytes come from places of their own, so an array of them would be made for these calls alone.
fn code_two(a: u8, b: u8) -> u32
    ensures { result ≡ a % 32 * 64 + b % 64 }
{
    (wide(a) & 0x1F) << 6 | wide(b) & 0x3F
}

fn code_three(a: u8, b: u8, c: u8) -> u32
    ensures { result ≡ (a % 16 * 64 + b % 64) * 64 + c % 64 }
{
    (wide(a) & 0x0F) << 12 | (wide(b) & 0x3F) << 6 | wide(c) & 0x3F
}

fn code_four(a: u8, b: u8, c: u8, d: u8) -> u32
    ensures { result ≡ ((a % 8 * 64 + b % 64) * 64 + c % 64) * 64 + d % 64 }
{
    (wide(a) & 0x07) << 18 | (wide(b) & 0x3F) << 12 | (wide(c) & 0x3F) << 6 | wide(d) & 0x3F
}

fn is_two(a: u8, b: u8) -> bool
    ensures { (l : List ℕ) → result ≡ well_formed 2 a (b ∷ l) }
{
    is_tail(b) & is_fitting(0x80, code_two(a, b))
}

fn is_three(a: u8, b: u8, c: u8) -> bool
    ensures { (l : List ℕ) → result ≡ well_formed 3 a (b ∷ c ∷ l) }
{
    is_tail(b) & is_tail(c) & is_fitting(0x800, code_three(a, b, c))
}

fn is_four(a: u8, b: u8, c: u8, d: u8) -> bool
    ensures { (l : List ℕ) → result ≡ well_formed 4 a (b ∷ c ∷ d ∷ l) }
{
    is_tail(b) & is_tail(c) & is_tail(d) & is_fitting(0x10000, code_four(a, b, c, d))
}

fn length_if(formed: bool, n: usize) -> usize
    ensures { result ≡ cond formed n 0 }
{
    if formed {
        return n;
    }
    0
}

// The length of the well formed sequence of n bytes that stands in s from `at` on, or 0 where none does: as an Option,
// and with the loops by `for`, Japanese text took 1.33 times as long; the bar is 1.2. Each length has its own `return`, so that nothing waits for the count of the leading bits.
// That `at` is a place of s is told by the test of is_utf8's loop: a place of a type of its own would be made in each turn.
fn formed_length(s: &[u8], at: usize, n: usize) -> usize
    requires at_in_bounds { at < length s.now }
    requires n_bound { n ≤ 4 }
    ensures { result ≡ cond (well_formed n (get_or s.now at 0) (drop (at + 1) s.now)) n 0 }
{
    if n == 1 {
        return 1;
    }
    if s.len() - at < n {
        return 0;
    }
    if n == 2 {
        return length_if(is_two(s[at], s[at + 1]), 2);
    }
    if n == 3 {
        return length_if(is_three(s[at], s[at + 1], s[at + 2]), 3);
    }
    if n == 4 {
        return length_if(is_four(s[at], s[at + 1], s[at + 2], s[at + 3]), 4);
    }
    0
}

// The 32 bytes of s from `at` on are ASCII. With a `for` here and in is_ascii German text took 1.25 times as long.
fn is_block(s: &[u8], at: usize) -> bool
    requires { at + 32 ≤ length s.now }
    ensures { result ≡ true → AsciiRun s.now at 32 }
{
    let mut m: u8 = 0;
    let mut j: usize = 0;
    while j < 32 {
        m = m | s[at + j];
        j += 1;
    }
    m < 0x80
}

// The same, where there are so many. It is tried at every 16th place, so that text with few other bytes is not read again and again.
fn is_run(s: &[u8], at: usize) -> bool
    requires { at < length s.now }
    ensures { result ≡ true → (at + 32 ≤ length s.now) × AsciiRun s.now at 32 }
{
    if at % 16 != 0 {
        return false;
    }
    if s.len() - at < 32 {
        return false;
    }
    is_block(s, at)
}

// How many ASCII bytes are passed at once from `at` on: 32, or one, or none where the byte is not ASCII.
fn ascii_run(s: &[u8], at: usize) -> usize
    requires { at < length s.now }
    ensures { (at + result ≤ length s.now) × AsciiRun s.now at result }
{
    if s[at] >= 0x80 {
        return 0;
    }
    if is_run(s, at) {
        return 32;
    }
    1
}

// All of s is ASCII: it is read once, many bytes at a time. A `for` here made German text take 1.48 times as long.
fn is_ascii(s: &[u8]) -> bool
    ensures { result ≡ true → AsciiRun s.now 0 (length s.now) }
{
    let mut m: u8 = 0;
    let mut i: usize = 0;
    while i < s.len() {
        m = m | s[i];
        i += 1;
    }
    m <= 0x7F
}

// s is UTF-8. Each turn says where the next sequence begins, so there is no index that a `for` would count.
pub fn is_utf8(s: &[u8]) -> bool
    ensures { result ≡ utf8 s.now }
{
    if is_ascii(s) {
        return true;
    }
    let mut i: usize = 0;
    while i < s.len() {
        let passed = ascii_run(s, i);
        if passed > 0 {
            i += passed;
            continue;
        }
        let formed = formed_length(s, i, lead_length(s[i]));
        if formed == 0 {
            return false;
        }
        i += formed;
    }
    true
}
