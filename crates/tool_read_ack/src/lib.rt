// The tool's readers of Received OK and Rejected: every field of their contents, or none, which is W3.
#![tactic(auto)]

ghost use Rattle.std.specs.Prelude.{◌≡◌};
ghost use Rattle.tool_read_ack.specs.Receipt.{read_received, read_rejection};

use tool_read_spec::Span;

// Received OK: whether a reply is to follow, and the timeout value, 0 to 15.
#[derive(Clone, Copy)]
pub struct Received {
    pub pending: bool,
    pub timeout: u8,
}

// Rejected: the code, and where further bytes stand.
#[derive(Clone, Copy)]
pub struct Rejection {
    pub code: u16,
    pub further: Span,
}

// Reads the content of a Received OK. A byte that is missing counts as 0, here and in the code of a Rejected.
#[tactic(auto, unfolding(crate::specs::Receipt::read_received))]
pub fn read_received_ok(content: &[u8]) -> Option<Received>
    ensures { result ≡ read_received content.now }
{
    if 1 < content.len() {
        return None;
    }
    let flags = buffer::byte_in(content, 0);
    Some(Received {
        pending: 0x80 <= flags,
        timeout: flags % 16,
    })
}

// Reads the content of a Rejected.
#[tactic(auto, unfolding(crate::specs::Receipt::read_rejection))]
pub fn read_rejected(content: &[u8]) -> Option<Rejection>
    ensures { result ≡ read_rejection content.now }
{
    if 66 < content.len() {
        return None;
    }
    let start = content.len().min(2);
    Some(Rejection {
        code: tool_read_spec::two_bytes(buffer::byte_in(content, 0), buffer::byte_in(content, 1)),
        further: Span {
            start,
            length: content.len() - start,
        },
    })
}
