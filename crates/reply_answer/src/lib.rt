// The answer to a datagram, and a reply in the lent buffer: the whole reply, or nothing where the buffer has no room
// for it.
#![tactic(auto)]

ghost use Rattle.std.specs.Prelude.{◌≡◌};
ghost use Rattle.reply_answer.specs.Answers.{code_of, received_ok_reply, Agrees};

// Why a datagram is rejected: wrong length, odd pairs or bad count; unknown command; byte 0 is not 0x20.
#[derive(Clone, Copy)]
pub enum Rejection {
    InvalidArguments,
    UnknownCommand,
    UnknownDatagramType,
}

// The code that is sent with Rejected: document 01, "Sent as Rejected".
pub fn code_of(rejection: Rejection) -> u16
    ensures { result ≡ code_of rejection }
{
    match rejection {
        Rejection::InvalidArguments => 0x1080,
        Rejection::UnknownCommand => 0x1041,
        Rejection::UnknownDatagramType => 0x1042,
    }
}

// The answer to a datagram: Rejected with a code; Received OK 0x00 to a write, which changed so many bytes of
// memory from an index on; Received OK 0x00 to Update Complete; or Received OK 0x80 and a reply of that many bytes in
// the buffer. The code is a number: what sends an answer, or hands it to C, takes any code.
#[derive(Clone, Copy)]
pub enum Answer {
    Rejected(u16),
    Written(usize, usize),
    UpdateComplete,
    Replied(usize),
}

// A reply of these bytes, and no other.
pub fn whole(reply: &mut [u8], bytes: &[u8]) -> Answer
    ensures { Agrees (received_ok_reply bytes.now) result reply.old reply.new }
{
    if reply.len() < bytes.len() {
        return Answer::Replied(0);
    }
    buffer::put(reply, 0, bytes);
    Answer::Replied(bytes.len())
}
