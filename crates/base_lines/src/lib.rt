// The lines of an input that is read piece by piece. A line's bytes are gathered in an area; those past its end are not kept.
#![tactic(auto)]

ghost use Rattle.std.specs.Prelude.{◌≡◌, ◌==◌, ◌+◌, ◌≤◌, length, drop, position};
ghost use Rattle.model_text.specs.Lines.{first_feed};
ghost use Rattle.base_lines.specs.Feeding.{Feeds};

// What a piece gave of a line: how many of its bytes are kept, and where the piece goes on behind its line feed; none where the line goes on in the next piece.
#[derive(Clone, Copy)]
pub struct Fed {
    pub len: usize,
    pub next: Option<usize>,
}

// Where the first line feed stands, if there is one.
fn feed_place(s: &[u8]) -> Option<usize>
    ensures { result ≡ position (λ b. b == 10) s.now }
{
    s.iter().position(|byte| *byte == b'\n')
}

// Where the next line feed stands at or after `from`, or the end of the piece.
pub fn next_feed(piece: &[u8], from: usize) -> usize
    ensures { result ≡ from + first_feed (drop from piece.now) }
{
    let Some(rest) = piece.get(from..) else {
        return from;
    };
    from + feed_place(rest).unwrap_or(rest.len())
}

// Takes the piece's bytes from `from` on up to its next line feed or its end behind the first len bytes of the line.
// The line's area is of fixed size and the caller's, so how many of its bytes are kept stands beside it.
pub fn feed(line: &mut [u8], len: usize, piece: &[u8], from: usize) -> Fed
    requires len_in_bounds { len ≤ length line.old }
    requires from_in_bounds { from ≤ length piece.now }
    ensures { Feeds line.old len piece.now from line.new result }
{
    let to = next_feed(piece, from);
    let n = (to - from).min(line.len() - len);
    line[len..len + n].copy_from_slice(&piece[from..from + n]);
    Fed {
        len: len + n,
        next: (to < piece.len()).then_some(to + 1),
    }
}
