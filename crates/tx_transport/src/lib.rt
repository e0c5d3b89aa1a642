// The frames of the transport replies Received OK and Rejected, and of a reply, by itself or behind Received OK. They
// are put into lent bytes, 16 for each, with room for the ten frames that an answer has at most.
#![tactic(auto)]

ghost use Rattle.std.specs.Prelude.{◌≡◌, ◌++◌, ◌+◌, ◌≤◌, ◌<◌, length};
ghost use Rattle.buffer.specs.Buffer.{over};
ghost use Rattle.can_frame.specs.Frame.{frame_of};
ghost use Rattle.can_frame_bytes.specs.Layout.{frames_bytes};
ghost use Rattle.tx_cut_spec.specs.Cutting.{cut_frames, RefusedBy};
ghost use Rattle.tx_transport.specs.Transport.{transport_reply, received_ok, rejected_with};

// The headers of the transport replies, without the board's alias.
const RECEIVED_OK: u32 = 0x19A28000;

const REJECTED: u32 = 0x19A48000;

// Puts a transport reply in front: its header is `top` with the board's alias in the low bits. 1, or 0 and no frame
// made where an alias is over 4,095.
fn put_reply(out: &mut [u8], top: u32, board: u16, tool: u16, part: &[u8]) -> usize
    requires { (top < 0x20000000) × (length part.now ≤ 8) × (16 ≤ length out.old) }
    ensures count { result ≡ length (transport_reply board tool (frame_of (top + board) part.now)) }
    ensures bytes { out.new ≡ over (frames_bytes (transport_reply board tool (frame_of (top + board) part.now)))
        out.old }
{
    if !tx_cut_spec::are_aliases(board, tool) {
        return 0;
    }
    can_frame_bytes::put_frame(out, 0, top + board as u32, part);
    1
}

// Received OK with its flags, from the board to a tool: 1, or 0 and no frame made where an alias is over 4,095, which
// no header carries.
#[tactic(auto, unfolding(crate::specs::Transport::received_ok))]
pub fn received_ok(board: u16, tool: u16, flags: u8, frames: &mut [u8; 160]) -> usize
    ensures count { result ≡ length (received_ok board tool flags) }
    ensures bytes { frames.new ≡ over (frames_bytes (received_ok board tool flags)) frames.old }
{
    let [high, low] = tool.to_be_bytes();
    put_reply(frames, RECEIVED_OK, board, tool, &[high, low, flags])
}

// Received OK with its flags, and behind it the frames of a reply: 1 to 10, or 0 and no frame made where an alias is
// over 4,095. A reply that B9 refuses adds none.
pub fn received_ok_then(
    board: u16,
    tool: u16,
    flags: u8,
    reply: &[u8],
    frames: &mut [u8; 160],
) -> usize
    ensures count { result ≡ length (received_ok board tool flags ++ cut_frames reply.now tool board) }
    ensures bytes { frames.new ≡ over (frames_bytes (received_ok board tool flags ++ cut_frames reply.now tool board))
        frames.old }
{
    if received_ok(board, tool, flags, frames) == 0 {
        return 0;
    }
    tx_cut::cut_behind(reply, tool, board, frames)
}

// The frames of a reply by itself, from the board to a tool: 1 to 9, or 0 and no frame made where B9 refuses it.
pub fn cut_reply(board: u16, tool: u16, reply: &[u8], frames: &mut [u8; 160]) -> usize
    ensures count { result ≡ length (cut_frames reply.now tool board) }
    ensures bytes { frames.new ≡ over (frames_bytes (cut_frames reply.now tool board)) frames.old }
    ensures refusal { RefusedBy reply.now tool board result }
{
    tx_cut::cut_datagram(reply, tool, board, frames)
}

// Rejected with its code, from the board to a tool: 1, or 0 and no frame made where an alias is over 4,095, which no
// header carries.
#[tactic(auto, unfolding(crate::specs::Transport::rejected_with))]
pub fn rejected(board: u16, tool: u16, code: u16, frames: &mut [u8; 160]) -> usize
    ensures count { result ≡ length (rejected_with board tool code) }
    ensures bytes { frames.new ≡ over (frames_bytes (rejected_with board tool code)) frames.old }
{
    let [high, low] = tool.to_be_bytes();
    let [code_high, code_low] = code.to_be_bytes();
    put_reply(
        frames,
        REJECTED,
        board,
        tool,
        &[high, low, code_high, code_low],
    )
}
