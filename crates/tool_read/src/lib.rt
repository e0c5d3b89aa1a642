// The tool's reader of reply datagrams: every field of a reply, or none, which is W3.
#![tactic(auto)]

ghost use Rattle.std.specs.Prelude.{◌≡◌, get_or};
ghost use Rattle.tool_read_spec.specs.Finding.{kind_of_reply, find_kind, find_reply, Readings};

use tool_read_spec::{ReplyIn, ReplyKind};

mod accesses;
mod inquiries;

// The reply by the kind of its command.
#[tactic(auto, unfolding(tool_read_spec::specs::Finding::find_kind))]
fn by_kind(datagram: &[u8]) -> Option<ReplyIn>
    ensures { result ≡ find_kind (kind_of_reply (get_or datagram.now 1 0)) datagram.now }
{
    match ReplyKind::from(cmd_fields::command_in(datagram)) {
        ReplyKind::Read => accesses::read(datagram),
        ReplyKind::ReadFailure => Some(ReplyIn::ReadFailure(accesses::failure(datagram)?)),
        ReplyKind::WriteDone => accesses::written(datagram),
        ReplyKind::WriteFailure => Some(ReplyIn::WriteFailure(accesses::failure(datagram)?)),
        ReplyKind::Options => inquiries::options(datagram),
        ReplyKind::Absent => inquiries::information(datagram, false),
        ReplyKind::Present => inquiries::information(datagram, true),
        ReplyKind::Locked => inquiries::locked(datagram),
        ReplyKind::Other => None,
    }
}

// Reads a reply datagram. What is found is what the language of replies says, and each datagram has one reading or
// none.
#[tactic(auto, using(tool_read_spec::proofs::ReadingLaws::readings), unfolding(tool_read_spec::specs::Finding::find_reply))]
pub fn read_reply(datagram: &[u8]) -> Option<ReplyIn>
    ensures fields { result ≡ find_reply datagram.now }
    ensures readings { Readings }
{
    let length = datagram.len();
    if length < 2 || 72 < length || datagram[0] != 0x20 {
        return None;
    }
    by_kind(datagram)
}
