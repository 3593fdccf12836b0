// Text that is written into an area line by line; what has no more room there is left out.
#![tactic(auto)]

ghost use Rattle.std.specs.Prelude.{◌≡◌, ◌≤◌, ◌+◌, ◌-◌, [], ◌∷◌, ◌++◌, length, map, replicate, take, decimal};
ghost use Rattle.model_screen.specs.Columns.{visible, shown, break_before, column_after, at_right, at_left, numbered, are_threes, with_commas, grouped};
ghost use Rattle.std.proofs.Math.Option.{some};
ghost use Rattle.screen_text.specs.Adding.{Adds, Flows};
ghost use Rattle.screen_text.specs.Told.{Tells};

pub mod text;

use base_refusals::Refusal;
use itoa::Buffer;
pub use text::Text;

// The columns of a line, of the indent of one that goes on, and of a part behind it.
const COLUMNS: usize = 80;

const INDENT: &[u8] = b"   ";

const PART: usize = 77;

// A byte that isn't printable ASCII is shown as a full stop.
fn visible(b: u8) -> u8
    ensures { result ≡ visible b }
{
    if (32..127).contains(&b) { b } else { b'.' }
}

// n spaces.
pub fn spaces(n: usize) -> &'static [u8]
    requires { n ≤ 48 }
    ensures { result.now ≡ replicate n 32 }
{
    static BLANKS: [u8; 48] = [b' '; 48];
    &BLANKS[..n]
}

fn are_threes(digits: usize) -> bool
    ensures { result ≡ are_threes digits }
{
    (digits != 0) & (digits % 3 == 0)
}

impl Text<'_> {
    fn put(&mut self, b: u8)
        ensures { Adds self.old (b ∷ []) self.new }
    {
        if self.at < self.out.len() {
            self.out[self.at] = b;
            self.at += 1;
        }
    }

    // The bytes of a text as they stand.
    pub fn add(&mut self, s: &[u8])
        ensures { Adds self.old s.now self.new }
    {
        for b in s {
            self.put(*b);
        }
    }

    // A text behind a label.
    pub fn add_words(&mut self, label: &[u8], s: &[u8])
        ensures { Adds self.old (label.now ++ s.now) self.new }
    {
        self.add(label);
        self.add(s);
    }

    // A number behind a label.
    pub fn add_number(&mut self, label: &[u8], n: u64)
        ensures { Adds self.old (numbered label.now n) self.new }
    {
        let mut buffer = Buffer::new();
        self.add_words(label, buffer.format(n).as_bytes());
    }

    // The bytes of a text as they are shown.
    fn show(&mut self, s: &[u8])
        ensures { Adds self.old (map visible s.now) self.new }
    {
        for b in s {
            self.put(visible(*b));
        }
    }

    pub fn end_line(&mut self)
        ensures { Adds self.old (10 ∷ []) self.new }
    {
        self.put(b'\n');
    }

    // What stands before a part of so many bytes; the column behind it.
    fn break_before(&mut self, column: usize, len: usize) -> usize
        requires { len ≤ 77 }
        ensures adds { Adds self.old (break_before column len) self.new }
        ensures column { result ≡ column_after column len }
    {
        if column == 0 {
            return len;
        }
        if column.saturating_add(1 + len) <= COLUMNS {
            self.put(b' ');
            return column + 1 + len;
        }
        self.end_line();
        self.show(INDENT);
        INDENT.len() + len
    }

    // A part of a line, from a column on, as three texts behind each other; the column behind it.
    pub fn flow(&mut self, column: usize, a: &[u8], b: &[u8], c: &[u8]) -> usize
        ensures { Flows self.old column (a.now ++ (b.now ++ c.now)) self.new result }
    {
        let a = &a[..a.len().min(PART)];
        let b = &b[..b.len().min(PART - a.len())];
        let c = &c[..c.len().min(PART - a.len() - b.len())];
        let next = self.break_before(column, a.len() + b.len() + c.len());
        self.show(a);
        self.show(b);
        self.show(c);
        next
    }

    // Digits in threes.
    fn group(&mut self, digits: &[u8])
        ensures { Adds self.old (with_commas digits.now) self.new }
    {
        for i in 0..digits.len() {
            self.put(digits[i]);
            if are_threes(digits.len() - i - 1) {
                self.put(b',');
            }
        }
    }

    // A number between two texts.
    pub fn flow_number(&mut self, column: usize, a: &[u8], n: u64, c: &[u8]) -> usize
        ensures { Flows self.old column (a.now ++ (decimal n ++ c.now)) self.new result }
    {
        let mut buffer = Buffer::new();
        self.flow(column, a, buffer.format(n).as_bytes(), c)
    }

    // A number at the right of a column.
    pub fn flow_right(&mut self, column: usize, a: &[u8], width: usize, n: u64) -> usize
        requires { width ≤ 20 }
        ensures { Flows self.old column (a.now ++ at_right width (decimal n)) self.new result }
    {
        let mut buffer = Buffer::new();
        let digits = buffer.format(n).as_bytes();
        self.flow(
            column,
            a,
            spaces(width.saturating_sub(digits.len())),
            digits,
        )
    }

    // A text at the left of a column.
    pub fn flow_left(&mut self, column: usize, a: &[u8], width: usize, s: &[u8]) -> usize
        requires { width ≤ 20 }
        ensures { Flows self.old column (a.now ++ at_left width s.now) self.new result }
    {
        self.flow(column, a, s, spaces(width.saturating_sub(s.len())))
    }

    // A number in threes of digits at the right of a column.
    pub fn flow_right_grouped(&mut self, column: usize, width: usize, n: u64) -> usize
        requires { width ≤ 20 }
        ensures { Flows self.old column (at_right width (grouped n)) self.new result }
    {
        let mut buffer = Buffer::new();
        let mut area = [0u8; 40];
        let len = with_commas(buffer.format(n).as_bytes(), &mut area);
        self.flow(column, spaces(width.saturating_sub(len)), &area[..len], b"")
    }

    // A number in threes of digits before a text.
    pub fn flow_grouped(&mut self, column: usize, n: u64, c: &[u8]) -> usize
        ensures { Flows self.old column (grouped n ++ c.now) self.new result }
    {
        let mut buffer = Buffer::new();
        let mut area = [0u8; 40];
        let len = with_commas(buffer.format(n).as_bytes(), &mut area);
        self.flow(column, b"", &area[..len], c)
    }
}

// Digits in threes, at the start of an area.
fn with_commas(digits: &[u8], area: &mut [u8; 40]) -> usize
    requires { length digits.now ≤ 20 }
    ensures len { result ≡ length (with_commas digits.now) }
    ensures area { take result area.new ≡ with_commas digits.now }
{
    let mut text = Text { out: area, at: 0 };
    text.group(digits);
    text.at
}

// A text at the start of an area: 9 where there is no room, which leaves it as it was.
pub fn tell(text: &[u8], out: &mut [u8]) -> Result<usize, Refusal>
    ensures { Tells (some text.now) out.old out.new result }
{
    if out.len() < text.len() {
        return Err(Refusal::NoRoom);
    }
    Ok(base_bytes::copy(text, out, 0))
}
