// Frames in lent bytes, 16 for each.
#![tactic(auto)]

ghost use Rattle.std.specs.Prelude.{◌≡◌, ◌++◌, ◌+◌, ◌-◌, ◌≤◌, length, replicate};
ghost use Rattle.buffer.specs.Buffer.{placed};
ghost use Rattle.buffer.specs.LittleEndian.{least_first};
ghost use Rattle.can_frame.specs.Frame.{frame_of};
ghost use Rattle.can_frame_bytes.specs.Layout.{frame_with, frame_bytes, frame_in_bytes, whole_frame, FrameAgain, frame_placed};

use can_frame::Frame;

// What lies before the data of a frame: its header and the number of its data bytes, each least significant byte first.
// By `buffer::bytes`, since hexadecimal digits come this way: std's `to_le_bytes` has a quotient before it is optimised.
fn head_of(header: u32, len: u32) -> [u8; 8]
    ensures { result ≡ least_first header ++ least_first len }
{
    let [h3, h2, h1, h0] = buffer::bytes(header);
    let [n3, n2, n1, n0] = buffer::bytes(len);
    [h0, h1, h2, h3, n0, n1, n2, n3]
}

// The data of a frame behind its head: behind them stand zeros. Eight bytes, which are the most common, are read four at a
// time before one of the four is stored, and so are moved as two words. All eight at once would be more than a small
// processor has registers for.
fn put_data(frame: &mut [u8], part: &[u8])
    requires { (length frame.old ≡ 16) × (length part.now ≤ 8) }
    ensures { frame.new ≡ placed 8 (part.now ++ replicate (8 - length part.now) 0) frame.old }
{
    if part.len() == 8 {
        buffer::put(frame, 8, &[part[0], part[1], part[2], part[3]]);
        buffer::put(frame, 12, &[part[4], part[5], part[6], part[7]]);
        return;
    }
    buffer::put(frame, 8, &[0u8; 8]);
    buffer::put(frame, 8, part);
}

// Puts a frame into its 16 bytes.
fn put_into(frame: &mut [u8], header: u32, part: &[u8])
    requires { (length frame.old ≡ 16) × (length part.now ≤ 8) }
    ensures { frame.new ≡ frame_bytes (frame_of header part.now) }
{
    let head = head_of(header, part.len() as u32);
    buffer::put(frame, 0, &head);
    put_data(frame, part);
}

// Frame n of the lent bytes, 16 from 16 * n on, becomes the frame with this header and the data `part`. Where `part`
// has more than 8 bytes, or the lent bytes have no frame n, nothing changes.
pub fn put_frame(frames: &mut [u8], n: usize, header: u32, part: &[u8])
    ensures { frames.new ≡ frame_placed n header part.now frames.old }
{
    if part.len() <= 8 && n < frames.len() / 16 {
        let at = 16 * n;
        put_into(&mut frames[at..at + 16], header, part);
    }
}

// The bytes of a frame with these eight bytes, of which `len` count.
pub fn bytes_of(header: u32, len: u32, bytes: [u8; 8]) -> [u8; 16]
    ensures { result ≡ frame_bytes (frame_with header len bytes) }
{
    let mut frame = [0u8; 16];
    buffer::put(&mut frame, 0, &head_of(header, len));
    buffer::put(&mut frame, 8, &bytes);
    frame
}

// The frame in 16 bytes from index `at` on, or one without data and with header 0 where they are not all there.
pub fn frame_at(bytes: &[u8], at: usize) -> Frame
    ensures { result ≡ whole_frame bytes.now at }
{
    let mut data = [0u8; 8];
    if bytes.len() < at || bytes.len() - at < 16 {
        return Frame {
            header: 0,
            len: 0,
            bytes: data,
        };
    }
    buffer::put(&mut data, 0, &bytes[at + 8..at + 16]);
    Frame {
        header: buffer::number_at(bytes, at),
        len: buffer::number_at(bytes, at + 4),
        bytes: data,
    }
}

// The frame that 16 bytes hold.
pub fn frame_in(bytes: &[u8; 16]) -> Frame
    ensures value { result ≡ frame_in_bytes bytes.now 0 }
    ensures again { FrameAgain }
{
    frame_at(bytes, 0)
}
