// What a refusal means and what to do, for a screen.
#![tactic(auto)]

ghost use Rattle.std.specs.Prelude.{◌≡◌};
ghost use Rattle.std.proofs.Math.Option.{some};
ghost use Rattle.model_screen.specs.RefusalText.{look, reading, writing, taking, calling, lending, requests, refusal_text};
ghost use Rattle.screen_text.specs.Told.{Tells};

use base_refusals::Refusal;

const NONE: &[u8] = b"no refusal has this number\n";

// Of reading a frame.
fn reading(number: u8) -> &'static [u8]
    ensures { result.now ≡ look number reading }
{
    match number {
        1 =>
            b"R 1    the length in front of a frame is above 67,108,864\n       The borders of the frames are lost, or this is no replication line. End\n       the connection.\n",
        2 =>
            b"R 2    a field or a count is longer than what is left, or bytes are left over\n       A damaged frame, or a sender of another version. End the connection.\n",
        3 =>
            b"R 3    an unknown byte of a kind, a part, a reason or a change\n       A damaged frame, or a newer sender. End the connection.\n",
        4 =>
            b"R 4    a text that isn't UTF-8\n       Mend the sender's text: Latin-1 is the usual cause.\n",
        5 =>
            b"R 5    a key that is none\n       Mend the session's names: a text is empty, too long or not printable.\n",
        6 =>
            b"R 6    a stamp that is none\n       Mend the sender: YYYYMMDD-HH:MM:SS or that with .sss is taken, of a day\n       that exists; in version 2 also 6, 9 or 12 digits behind the point.\n",
        7 =>
            b"R 7    marks that are none\n       Mend the sender: at most 64 printable bytes are taken.\n",
        _ => NONE,
    }
}

// Of writing one.
fn writing(number: u8) -> &'static [u8]
    ensures { result.now ≡ look number writing }
{
    match number {
        8 =>
            b"R 8    a field that reading would refuse\n       Mend the host: what is written must be readable.\n",
        9 =>
            b"R 9    the output area is too short\n       Mend the host: lend a longer area. Nothing was written.\n",
        _ => NONE,
    }
}

// Of taking one.
fn taking(number: u8) -> &'static [u8]
    ensures { result.now ≡ look number taking }
{
    match number {
        10 =>
            b"R 10   the standby has taken over\n       Stop the old active. If this was a mistake, begin a new standby.\n",
        11 =>
            b"R 11   a version that is neither 1 nor 2\n       Install the same version on both machines.\n",
        12 =>
            b"R 12   a Hello lists kinds of application record\n       Switch them off in the active: this standby keeps none.\n",
        13 =>
            b"R 13   a Batch has application records\n       Switch them off in the active: this standby keeps none.\n",
        14 =>
            b"R 14   a Batch on a handle that isn't bound\n       The active must Bind first, and anew after every Hello.\n",
        15 =>
            b"R 15   a Commit between the parts of a session sent whole\n       The active must end the sending, or bind the handle anew.\n",
        16 =>
            b"R 16   a session sent whole without a Reset in front\n       The capture begins in the middle of a sending, or the active is at fault.\n",
        17 =>
            b"R 17   the held messages are above 4,294,967,296 bytes\n       The session is too large to be sent whole.\n",
        18 =>
            b"R 18   the hold area is full\n       Set C and M equal on both machines, or lend longer hold areas.\n",
        19 =>
            b"R 19   a frame that only a standby sends\n       This is the other direction of the line: give the active's.\n",
        20 =>
            b"R 20   no free session place for a new key\n       Raise the number of sessions and start the standby anew.\n",
        21 =>
            b"R 21   no free handle place for a new handle\n       Raise the number of handles and start the standby anew.\n",
        _ => NONE,
    }
}

// Of calls without a frame.
fn calling(number: u8) -> &'static [u8]
    ensures { result.now ≡ look number calling }
{
    match number {
        22 =>
            b"R 22   not the current connection, or promoted\n       Nothing to do: the newer connection counts.\n",
        23 =>
            b"R 23   nobody has checked the copy\n       Let the active compare all sessions. If you know that the copy is whole,\n       promote it unchecked.\n",
        24 =>
            b"R 24   the commit numbers are used up\n       Bind the handle anew: its numbers then begin with 1.\n",
        _ => NONE,
    }
}

// Of what is lent.
fn lending(number: u8) -> &'static [u8]
    ensures { result.now ≡ look number lending }
{
    match number {
        25 =>
            b"R 25   areas, limits or a place that break the rules\n       Mend the host: C is at most 33,554,432, M at most 65,536. It never comes\n       from a frame.\n",
        26 =>
            b"R 26   not just one whole frame\n       A frame that is cut short, or more than one; of a line: no lower-case\n       digits.\n",
        _ => NONE,
    }
}

// Of the change requests, and the store's own.
fn requests(number: u8) -> &'static [u8]
    ensures { result.now ≡ look number requests }
{
    match number {
        27 =>
            b"R 27   a 257th session in the books of a catch-up\n       Lend further books for the rest.\n",
        28 =>
            b"R 28   a field fault in a message log\n       Look at the file there: it may be cut, or have line feeds between\n       messages.\n",
        29 =>
            b"R 29   a false length or sum in a message log\n       The message was changed since it was sent: ask for an unchanged copy.\n",
        30 =>
            b"R 30   a number in a message log that doesn't rise\n       Cut the file at the reset, and import the part that counts.\n",
        31 =>
            b"R 31   a lease's time that falls\n       Hand in a clock that never falls, and times in the order of reading.\n",
        32 =>
            b"R 32   a stamp with more than three digits of a second, over version 1\n       Let the active connect by a Hello of version 2: a stamp is never cut.\n",
        33 =>
            b"R 33   a stamp that has no number\n       It is before 1970, or its second is 60: sort such stamps as texts.\n",
        34 =>
            b"R 34   a number that has no stamp\n       Mend the call: the time is past the year 9999, or the remainder isn't\n       below 1,000,000,000 picoseconds.\n",
        35 =>
            b"R 35   ranges that are none, or more than 64\n       Turn the counterparty's request down.\n",
        36 =>
            b"R 36   fewer entries than the list has\n       Mend the host: lend one entry for each stored message.\n",
        37 =>
            b"R 37   outside the quorum\n       Mend the call: an n, k, member or handle that isn't there.\n",
        38 => b"R 38   out of sequence\n       The standby is out of step: end its connection.\n",
        39 =>
            b"R 39   no copy fits\n       Connect the copies that are missing, or decide by hand.\n",
        40 =>
            b"R 40   an outgoing number that can't be recorded\n       Record the next number or a higher one; after the last a Reset begins\n       anew.\n",
        _ => NONE,
    }
}

// A refusal's words.
#[tactic(auto, unfolding(model_screen::specs::RefusalText::refusal_text))]
fn words(number: u8) -> &'static [u8]
    ensures { result.now ≡ refusal_text number }
{
    if number <= 7 {
        reading(number)
    } else if number <= 9 {
        writing(number)
    } else if number <= 21 {
        taking(number)
    } else if number <= 24 {
        calling(number)
    } else if number <= 26 {
        lending(number)
    } else {
        requests(number)
    }
}

// A refusal as it is shown: 9 an area too short, which leaves it as it was.
pub fn put_refusal(number: u8, out: &mut [u8]) -> Result<usize, Refusal>
    ensures { Tells (some (refusal_text number)) out.old out.new result }
{
    screen_text::tell(words(number), out)
}
