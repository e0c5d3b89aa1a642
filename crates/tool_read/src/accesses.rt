// The replies to reads and writes: those that have an address.
ghost use Rattle.std.specs.Prelude.{◌≡◌, cond, Some, None};
ghost use Rattle.tool_read_spec.specs.Finding.{target_in, failure_fits, failure_in, find_read, find_written};

use tool_read_spec::{Failure, ReplyIn, Span, Target};

// What was read or written.
fn target(datagram: &[u8]) -> Target
    ensures { result ≡ target_in datagram.now }
{
    let named = cmd_view::target_of(datagram);
    Target {
        form: cmd_fields::form_in(datagram),
        space: named.space,
        address: named.address,
    }
}

// The bytes read: 1 to 64.
#[tactic(auto, unfolding(tool_read_spec::specs::Finding::find_read))]
pub fn read(datagram: &[u8]) -> Option<ReplyIn>
    ensures { result ≡ find_read datagram.now }
{
    let target = target(datagram);
    let start = cmd_fields::head_length(target.form);
    let length = datagram.len().checked_sub(start)?;
    if length < 1 || 64 < length {
        return None;
    }
    Some(ReplyIn::Read {
        target,
        data: Span { start, length },
    })
}

// A write that is done, with nothing behind.
#[tactic(auto, unfolding(tool_read_spec::specs::Finding::find_written))]
pub fn written(datagram: &[u8]) -> Option<ReplyIn>
    ensures { result ≡ find_written datagram.now }
{
    let target = target(datagram);
    if datagram.len() != cmd_fields::head_length(target.form) {
        return None;
    }
    Some(ReplyIn::WriteDone(target))
}

// A read, a write or a masked write that failed: a code behind the head, and behind it a message of at most 63 bytes,
// or none. It is called twice: inlined, its result does not go over the stack.
#[tactic(auto, unfolding(tool_read_spec::specs::Finding::failure_fits))]
#[inline(always)]
pub fn failure(datagram: &[u8]) -> Option<Failure>
    ensures { result ≡ cond (failure_fits datagram.now) (Some (failure_in datagram.now)) None }
{
    let target = target(datagram);
    let head = cmd_fields::head_length(target.form);
    let start = head + 2;
    let end = datagram.len();
    if end < start || 63 < end - start || !tool_text::is_text_from(datagram, start) {
        return None;
    }
    Some(Failure {
        target,
        code: tool_read_spec::two_bytes(datagram[head], datagram[head + 1]),
        message: tool_read_spec::text_from(start, end),
    })
}
