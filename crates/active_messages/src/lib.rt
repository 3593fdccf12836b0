// One batch of a session that is sent whole (active.rs, send_whole), over the session's log.
#![tactic(auto)]

pub mod put;

ghost use Rattle.std.specs.Prelude.{◌≡◌, cond, ◌+◌, ◌*◌, ◌≤◌, ◌<◌, length, ltb};
ghost use Rattle.model_frame.specs.Parse.{run_bytes};
ghost use Rattle.model_frame.specs.Writing.{change_bytes};
ghost use Rattle.model_frame.specs.Sizes.{sizes};
ghost use Rattle.base_bytes.specs.Put.{Put};
ghost use Rattle.model_session.specs.Summary.{numbered_from};
ghost use Rattle.store_log.specs.Log.{Position, log_of, rest_of};
ghost use Rattle.active_messages.specs.Cut.{taken, batch_count, Measured};

use base_bytes::Writer;
use store_log::LogPosition;
use store_log::log::Log;

// How many changes, and their bytes.
#[derive(Clone, Copy)]
pub struct Extent {
    pub count: usize,
    pub size: usize,
}

// A batch: the position in the log where it ends, the next outgoing number there, and the changes that its messages make.
#[derive(Clone, Copy)]
pub struct Cut {
    pub position: LogPosition,
    pub next: u64,
    pub extent: Extent,
}

// How many bare records stand before a message: one if numbers were skipped.
fn skips(next: u64, number: u64) -> usize
    ensures is { result ≡ cond (ltb next number) 1 0 }
    ensures within { result ≤ 1 }
{
    usize::from(next < number)
}

// Whether a batch with so many message bytes takes no more.
fn is_full(limit: u64, sent: u64) -> bool
    ensures { result ≡ ltb limit sent }
{
    limit < sent
}

// Measures the batch that begins at a position in the log, where the next outgoing number is next.
// The limits stand here and not in `Log`, which is read without them.
pub fn measure(log: &Log, position: LogPosition, next: u64, limit: u64) -> Cut
    requires max_bound { log.now.max ≤ 65536 }
    requires bytes_len_bound { length log.now.bytes.now ≤ 33554432 }
    requires le_end { 1 ≤ log.now.next }
    requires position { Position (length log.now.bytes.now) log.now.max log.now.next log.now.words.now log.now.bytes.now position.left position.dist }
    ensures { Measured limit (length log.now.bytes.now) log.now.max log.now.next log.now.words.now log.now.bytes.now position.left position.dist next result.position.left result.position.dist result.next result.extent.count result.extent.size }
{
    let mut end = position;
    let mut next = next;
    let mut count: usize = 0;
    let mut size: usize = 0;
    let mut sent: u64 = 0;
    for found in log.messages_at(position) {
        if is_full(limit, sent) {
            break;
        }
        let skip = skips(next, found.number);
        let len = found.span.first + found.span.rest;
        count = count + skip + 1;
        size = size + 9 * skip + 13 + len;
        sent += len as u64;
        next = found.number + 1;
        end = found.next;
    }
    Cut {
        position: end,
        next,
        extent: Extent { count, size },
    }
}

// Writes the changes of the messages of that batch.
pub fn put_messages(log: &Log, position: LogPosition, next: u64, limit: u64, writer: &mut Writer)
    requires bytes_len_bound { length log.now.bytes.now ≤ 33554432 }
    requires position { Position (length log.now.bytes.now) log.now.max log.now.next log.now.words.now log.now.bytes.now position.left position.dist }
    requires left_in_bounds { writer.old.at + sizes (taken limit 0 next (rest_of (length log.now.bytes.now) log.now.max log.now.next log.now.words.now log.now.bytes.now position.left)) ≤ length writer.old.out.now }
    ensures { Put writer.old (run_bytes change_bytes (taken limit 0 next (rest_of (length log.now.bytes.now) log.now.max log.now.next log.now.words.now log.now.bytes.now position.left))) writer.new }
{
    let mut next = next;
    let mut sent: u64 = 0;
    for found in log.messages_at(position) {
        if is_full(limit, sent) {
            break;
        }
        let parts = log.parts(found.span);
        put::put_sent(next, found.number, &parts, writer);
        sent += (found.span.first + found.span.rest) as u64;
        next = found.number + 1;
    }
}

// How many batches send the log. Where a batch ends doesn't depend on the number before it, so that is 1.
pub fn batches(log: &Log, limit: u64) -> usize
    requires max_bound { log.now.max ≤ 65536 }
    requires bytes_len_bound { length log.now.bytes.now ≤ 33554432 }
    requires le_end { 1 ≤ log.now.next }
    ensures is { result ≡ batch_count limit 0 (numbered_from 1 (log_of (length log.now.bytes.now) log.now.max log.now.next log.now.words.now log.now.bytes.now)) }
    ensures few { result ≤ 33554433 }
{
    let mut cut = measure(log, log.position_from(1), 1, limit);
    let mut count = 1;
    // A while: each batch gives the position where the next one begins, so no index counts them.
    while 0 < cut.position.left {
        cut = measure(log, cut.position, 1, limit);
        count += 1;
    }
    count
}
