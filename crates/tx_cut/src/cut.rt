// A datagram cut into frames that are put into lent bytes from a given frame on.
ghost use Rattle.std.specs.Prelude.{◌≡◌, ◌+◌, ◌*◌, ◌/◌, ◌%◌, ◌≤◌, ◌<◌, length};
ghost use Rattle.buffer.specs.Buffer.{put_at};
ghost use Rattle.can_frame.specs.Frame.{header_of};
ghost use Rattle.can_frame_bytes.specs.Layout.{frames_bytes, frame_placed};
ghost use Rattle.tx_cut_spec.specs.Cutting.{rest_frames, frames_of};

// The top five bits of a header whose frame is a whole datagram, the first of several, one of those between, and the
// last. They go into a header as they are: an enum would need a table that gives these numbers back.
const SINGLE: u32 = 0x1A;

const FIRST: u32 = 0x1B;

const MIDDLE: u32 = 0x1C;

const LAST: u32 = 0x1D;

// Puts the frame of that kind as frame n; the number of the next is returned. Here and below `aliases` is what the
// headers of a datagram's frames share: the destination's 12 bits and then the source's. One number instead of two, and
// lent bytes of a known length, leave less for each call to hand on. The clause `size` is for the callers' proofs: how
// long a lent array is, is known only where it is handed on as a slice.
fn put_fragment(frames: &mut [u8; 160], n: u32, kind: u32, aliases: u32, part: &[u8]) -> u32
    requires { (kind < 32) × (aliases < 16777216) × (n ≤ 10) }
    ensures next { result ≡ n + 1 }
    ensures bytes { frames.new ≡ frame_placed n (header_of kind (aliases / 4096) (aliases % 4096)) part.now
        frames.old }
    ensures size { length frames.old ≡ 160 }
{
    let header = kind * 0x1000000 + aliases;
    can_frame_bytes::put_frame(frames, n as usize, header, part);
    n + 1
}

// Of more than 8 bytes the first 8 go in a Middle, and what is left is cut by the same rule; 1 to 8 go in a Last. The
// frames are put into the lent bytes from frame n on; the number of all is returned.
pub fn cut_rest(rest: &[u8], aliases: u32, frames: &mut [u8; 160], n: u32) -> u32
    requires { (aliases < 16777216) × (n + length (rest_frames (aliases / 4096) (aliases % 4096) rest.now) ≤ 10) }
    ensures count { result ≡ n + length (rest_frames (aliases / 4096) (aliases % 4096) rest.now) }
    ensures bytes { frames.new ≡ put_at (16 * n) (frames_bytes (rest_frames (aliases / 4096) (aliases % 4096) rest.now))
        frames.old }
{
    if rest.len() <= 8 {
        return put_fragment(frames, n, LAST, aliases, rest);
    }
    let next = put_fragment(frames, n, MIDDLE, aliases, &rest[..8]);
    cut_rest(&rest[8..], aliases, frames, next)
}

// Up to 8 bytes go in a Single; otherwise the first 8 go in a First, and the rest is cut by the rule above. The frames
// are put into the lent bytes from frame n on; the number of all is returned. (One function for this and `cut_rest` would
// take two kinds of frame, and its clauses would name both of the definitions `frames_of` and `rest_frames` by cases.)
pub fn cut_whole(datagram: &[u8], aliases: u32, frames: &mut [u8; 160], n: u32) -> u32
    requires { (aliases < 16777216)
        × (n + length (frames_of (aliases / 4096) (aliases % 4096) datagram.now) ≤ 10) }
    ensures count { result ≡ n + length (frames_of (aliases / 4096) (aliases % 4096) datagram.now) }
    ensures bytes { frames.new ≡ put_at (16 * n) (frames_bytes (frames_of (aliases / 4096) (aliases % 4096) datagram.now))
        frames.old }
{
    if datagram.len() <= 8 {
        return put_fragment(frames, n, SINGLE, aliases, datagram);
    }
    let next = put_fragment(frames, n, FIRST, aliases, &datagram[..8]);
    cut_rest(&datagram[8..], aliases, frames, next)
}
