// The CAN frame and its 29-bit header: what a frame is to the board, and from whom it came.
#![tactic(auto)]

ghost use Rattle.std.specs.Prelude.{◌≡◌, ◌≤◌};
ghost use Rattle.can_frame.specs.Frame.{source_of, kind_of_frame, role_of};
ghost use Rattle.can_frame.specs.Refusal.{refusal_code};

// A frame to be sent or one that was read: its data are the first `len` of the bytes. The crate `can_frame_bytes` says
// how it lies in 16 bytes.
#[repr(C)]
#[derive(Clone, Copy)]
pub struct Frame {
    pub header: u32,
    pub len: u32,
    pub bytes: [u8; 8],
}

// What a frame is to the board.
#[derive(Drop)]
pub enum Role {
    Ignored,
    Single,
    First,
    Middle,
    Last,
}

// Why the transport refuses a frame. Each refusal has the code by which the tool hears of it.
#[derive(Clone, Copy)]
pub enum TransportRefusal {
    TemporaryError = 0x2000,
    BufferUnavailable = 0x2020,
    OutOfOrder = 0x2040,
}

impl TransportRefusal {
    // The code that the frame of the refusal carries.
    pub fn code(self) -> u16
        ensures { result ≡ refusal_code self }
    {
        self as u16
    }
}

// The source alias of a header.
pub fn source_of(header: u32) -> u16
    ensures { (result ≡ source_of header) × (result ≤ 4095) }
{
    (header % 4096) as u16
}

// The kind by the top five bits of a header of 29 bits.
#[tactic(auto, unfolding(crate::specs::Frame::kind_of_frame))]
fn kind_of(top: u32) -> Role
    ensures { result ≡ kind_of_frame top }
{
    match top {
        0x1A => Role::Single,
        0x1B => Role::First,
        0x1C => Role::Middle,
        0x1D => Role::Last,
        _ => Role::Ignored,
    }
}

// What a frame with `size` bytes of data is to the board with that alias.
#[tactic(auto, unfolding(crate::specs::Frame::role_of, crate::specs::Frame::addressed))]
pub fn role_of(alias: u16, header: u32, size: usize) -> Role
    ensures { result ≡ role_of alias header size }
{
    if 8 < size {
        return Role::Ignored;
    }
    if 0x20000000 <= header {
        return Role::Ignored;
    }
    if header / 4096 % 4096 != alias as u32 {
        return Role::Ignored;
    }
    if header % 4096 == alias as u32 {
        return Role::Ignored;
    }
    kind_of(header / 0x1000000)
}
