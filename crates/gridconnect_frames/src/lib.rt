// Frames that lie in lent bytes, printed as lines, and the room that an answer takes as text.
#![tactic(auto)]

ghost use Rattle.std.specs.Prelude.{◌≡◌, ◌+◌, ◌*◌, ◌≤◌, min, length};
ghost use Rattle.buffer.specs.Buffer.{put_at};
ghost use Rattle.gridconnect_print.specs.Line.{Printed};
ghost use Rattle.gridconnect_frames.specs.Printing.{frames_from, frames_text, when_room};
ghost use Rattle.gridconnect_frames.specs.Room.{has_room};

// The first n frames.
fn print_some(frames: &[u8; 160], n: usize, out: &mut [u8], at: usize) -> usize
    requires { (n ≤ 10) × (at + 29 * n ≤ length out.old) }
    ensures end { result ≡ at + length (frames_text (frames_from frames.now 0 n)) }
    ensures out { out.new ≡ put_at at (frames_text (frames_from frames.now 0 n)) out.old }
{
    let mut end = at;
    for i in 0..n {
        let frame = can_frame_bytes::frame_at(frames, i << 4);
        end = gridconnect_print::print_frame(frame, out, end);
    }
    end
}

// Prints the first `count` of ten frames from index `at` of `out` on, and returns the index past them. Where `out` has
// no room for the longest lines of ten, nothing is printed.
pub fn print_frames(frames: &[u8; 160], count: usize, out: &mut [u8], at: usize) -> usize
    ensures { Printed at (when_room at out.old (frames_text (frames_from frames.now 0 (min count 10)))) out.old
        result out.new }
{
    if !has_room(at, out.len()) {
        return at;
    }
    print_some(frames, count.min(10), out, at)
}

// The longest that the frames of one answer are printed as: a transport reply and nine frames, lines of at most 29
// bytes.
const LONGEST_ANSWER: usize = 290;

// Whether a buffer of `size` bytes has room for that from index `at` on.
pub fn has_room(at: usize, size: usize) -> bool
    ensures { result ≡ has_room at size }
{
    gridconnect_print::has_room(size, at, LONGEST_ANSWER)
}
