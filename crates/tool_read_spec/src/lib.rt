// What a reader finds in a reply datagram: numbers, and where bytes stand in it; and the kind of a reply by its
// command.
#![tactic(auto)]

ghost use Rattle.std.specs.Prelude.{◌≡◌, ◌+◌, ◌*◌};
ghost use Rattle.tool_read_spec.specs.Finding.{kind_of_reply, text_from};

use cmd_fields::Form;

// Bytes of a datagram: where they start, and how many they are. Those of a text are its characters, without the zero
// byte that ends it: an empty text has none of them, and is a text.
#[derive(Clone, Copy)]
pub struct Span {
    pub start: usize,
    pub length: usize,
}

// What was read or written: the form that names the space, the space, and the address.
#[derive(Clone, Copy)]
pub struct Target {
    pub form: Form,
    pub space: u8,
    pub address: u32,
}

// Why a read or a write failed, and a message, where there is one.
#[derive(Clone, Copy)]
pub struct Failure {
    pub target: Target,
    pub code: u16,
    pub message: Option<Span>,
}

// The lowest space of the options, and a name behind it, where there is one.
#[derive(Clone, Copy)]
pub struct LowestSpace {
    pub space: u8,
    pub name: Option<Span>,
}

// The options of a board.
#[derive(Clone, Copy)]
pub struct Options {
    pub commands: u16,
    pub write_lengths: u8,
    pub highest_space: u8,
    pub lowest: Option<LowestSpace>,
}

// The information on a space that is present or not. A lowest address and a description may be missing.
#[derive(Clone, Copy)]
pub struct Information {
    pub present: bool,
    pub space: u8,
    pub highest_address: u32,
    pub flags: u8,
    pub lowest_address: Option<u32>,
    pub description: Option<Span>,
}

// The kinds of replies, by byte 1. A space that space information names is absent or present.
#[derive(Clone, Copy)]
pub enum ReplyKind {
    Read,
    ReadFailure,
    WriteDone,
    WriteFailure,
    Options,
    Absent,
    Present,
    Locked,
    Other,
}

// A reply with its fields. The data of a read and the lock's ID are given by where they stand.
#[derive(Drop)]
pub enum ReplyIn {
    Read { target: Target, data: Span },
    ReadFailure(Failure),
    WriteDone(Target),
    WriteFailure(Failure),
    Options(Options),
    Information(Information),
    Locked(Span),
}

impl From<u8> for ReplyKind {
    ghost from_gives = { λ command kind. kind ≡ kind_of_reply command };

    #[tactic(auto, unfolding(crate::specs::Finding::kind_of_reply))]
    fn from(command: u8) -> ReplyKind {
        match command {
            0x50..=0x53 => ReplyKind::Read,
            0x58..=0x5B => ReplyKind::ReadFailure,
            0x10..=0x13 => ReplyKind::WriteDone,
            0x18..=0x1B => ReplyKind::WriteFailure,
            0x82 => ReplyKind::Options,
            0x86 => ReplyKind::Absent,
            0x87 => ReplyKind::Present,
            0x8A => ReplyKind::Locked,
            _ => ReplyKind::Other,
        }
    }
}

// The text from an index to the end of a datagram, where the bytes there are one; none where there are no bytes.
pub fn text_from(start: usize, end: usize) -> Option<Span>
    ensures { result ≡ text_from start end }
{
    if end <= start {
        return None;
    }
    Some(Span {
        start,
        length: end - start - 1,
    })
}

// A number of two bytes, most significant first: std's, with a clause that says it as specs/ does. It stays a function,
// since must-fail/two_bytes_exchanged is about its line.
pub fn two_bytes(high: u8, low: u8) -> u16
    ensures { result ≡ high * 256 + low }
{
    u16::from_be_bytes([high, low])
}
