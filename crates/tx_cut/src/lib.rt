// A datagram cut into frames. Each frame is written straight into lent bytes, 16 for each, with room for the ten frames
// that an answer has at most.
#![tactic(auto)]

ghost use Rattle.std.specs.Prelude.{◌≡◌, ◌+◌, ◌*◌, ◌≤◌, length};
ghost use Rattle.buffer.specs.Buffer.{over, put_at};
ghost use Rattle.can_frame_bytes.specs.Layout.{frames_bytes};
ghost use Rattle.tx_cut_spec.specs.Cutting.{cut_frames, RefusedBy, CutJoins};

mod cut;

// Cuts a datagram into frames that are put from frame n on, and gives the number of all: n where B9 refuses the
// datagram.
fn cut_from(datagram: &[u8], destination: u16, source: u16, frames: &mut [u8; 160], n: u32) -> usize
    requires { n ≤ 1 }
    ensures count { result ≡ n + length (cut_frames datagram.now destination source) }
    ensures bytes { frames.new ≡ put_at (16 * n) (frames_bytes (cut_frames datagram.now destination source))
        frames.old }
{
    if !tx_cut_spec::is_cut(datagram.len(), destination, source) {
        return n as usize;
    }
    let aliases = destination as u32 * 0x1000 + source as u32;
    cut::cut_whole(datagram, aliases, frames, n) as usize
}

// Cuts a datagram into frames from the source to the destination, and gives their number, 1 to 9. Refused, by B9, with
// 0 and no frame made, where the datagram has more than 72 bytes or an alias is over 4,095.
pub fn cut_datagram(datagram: &[u8], destination: u16, source: u16, frames: &mut [u8; 160]) -> usize
    ensures count { result ≡ length (cut_frames datagram.now destination source) }
    ensures bytes { frames.new ≡ over (frames_bytes (cut_frames datagram.now destination source)) frames.old }
    ensures joins { CutJoins }
    ensures refusal { RefusedBy datagram.now destination source result }
{
    cut_from(datagram, destination, source, frames, 0)
}

// The same behind the first frame, which stays: the number of all, 2 to 10, or 1 where B9 refuses the datagram.
pub fn cut_behind(datagram: &[u8], destination: u16, source: u16, frames: &mut [u8; 160]) -> usize
    ensures count { result ≡ 1 + length (cut_frames datagram.now destination source) }
    ensures bytes { frames.new ≡ put_at 16 (frames_bytes (cut_frames datagram.now destination source)) frames.old }
{
    cut_from(datagram, destination, source, frames, 1)
}
