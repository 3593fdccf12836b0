// Writing the changes of messages.
ghost use Rattle.std.specs.Prelude.{◌∷◌, ◌++◌, ◌+◌, ◌≤◌, length};
ghost use Rattle.model_frame.specs.Frame.{record_msg};
ghost use Rattle.model_frame.specs.Parse.{run_bytes};
ghost use Rattle.model_frame.specs.Writing.{blob_bytes, change_bytes};
ghost use Rattle.model_frame.specs.Sizes.{sizes};
ghost use Rattle.model_session.specs.Whole.{skip_to, send_msg};
ghost use Rattle.base_bytes.specs.Put.{Put};
ghost use Rattle.store_log.specs.Log.{msg};

use base_bytes::Writer;
use frame_op::kind;
use store_log::log::Parts;

// A tag and a text.
pub fn put_text(k: u8, s: &[u8], writer: &mut Writer)
    requires s_in_bounds { writer.old.at + 5 + length s.now ≤ length writer.old.out.now }
    requires s_len_bound { length s.now ≤ 64 }
    ensures { Put writer.old (k ∷ blob_bytes s.now) writer.new }
{
    writer.byte(k);
    writer.blob(s);
}

// A bare record of n - 1, if numbers from next on were skipped before n.
pub fn put_skip(next: u64, n: u64, writer: &mut Writer)
    requires { writer.old.at + sizes (skip_to next n) ≤ length writer.old.out.now }
    ensures { Put writer.old (run_bytes change_bytes (skip_to next n)) writer.new }
{
    if next < n {
        writer.tagged(kind::RECORD_NONE, n - 1);
    }
}

// A message's bytes.
pub fn put_message(parts: &Parts, writer: &mut Writer)
    requires { writer.old.at + length parts.now.first.now + length parts.now.rest.now ≤ length writer.old.out.now }
    ensures { Put writer.old (parts.now.first.now ++ parts.now.rest.now) writer.new }
{
    writer.bytes(parts.first);
    writer.bytes(parts.rest);
}

// A record with its message.
pub fn put_record(number: u64, parts: &Parts, writer: &mut Writer)
    requires parts_bound { length parts.now.first.now + length parts.now.rest.now ≤ 33554432 }
    requires parts_in_bounds { writer.old.at + 13 + length parts.now.first.now + length parts.now.rest.now ≤ length writer.old.out.now }
    ensures { Put writer.old (change_bytes (record_msg number (parts.now.first.now ++ parts.now.rest.now))) writer.new }
{
    writer.tagged(kind::RECORD, number);
    writer.number((parts.first.len() + parts.rest.len()) as u32);
    put_message(parts, writer);
}

// A record with its message, and a bare record before it if numbers from next on were skipped.
pub fn put_sent(next: u64, number: u64, parts: &Parts, writer: &mut Writer)
    requires parts_bound { length parts.now.first.now + length parts.now.rest.now ≤ 33554432 }
    requires parts_in_bounds { writer.old.at + sizes (skip_to next number) + 13 + length parts.now.first.now + length parts.now.rest.now ≤ length writer.old.out.now }
    ensures { Put writer.old (run_bytes change_bytes (send_msg next (msg number (parts.now.first.now ++ parts.now.rest.now)))) writer.new }
{
    put_skip(next, number, writer);
    put_record(number, parts, writer);
}
