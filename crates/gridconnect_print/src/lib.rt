// GridConnect: a frame printed as a line of text.
#![tactic(auto)]

ghost use Rattle.std.specs.Prelude.{◌≡◌, ◌+◌, ◌*◌, ◌≤◌, ◌<◌, [], ◌∷◌, ◌++◌, leb, length};
ghost use Rattle.buffer.specs.Buffer.{placed};
ghost use Rattle.hex_print.specs.Digits.{hex_digits};
ghost use Rattle.gridconnect_print.specs.Line.{frame_text, unknown_text, Printed};

use can_frame::Frame;

// Whether a buffer of `size` bytes has `n` of them from index `at` on.
pub fn has_room(size: usize, at: usize, n: usize) -> bool
    ensures { result ≡ leb (at + n) size }
{
    at <= size && n <= size - at
}

// One byte and two, stored: `buffer::put` of them is not put into its caller, and a line is printed slower by half.
fn put_byte(out: &mut [u8], at: usize, a: u8)
    requires { at < length out.old }
    ensures { out.new ≡ placed at (a ∷ []) out.old }
{
    out[at] = a;
}

fn put_pair(out: &mut [u8], at: usize, a: u8, b: u8)
    requires { at + 1 < length out.old }
    ensures { out.new ≡ placed at (a ∷ b ∷ []) out.old }
{
    out[at] = a;
    out[at + 1] = b;
}

// Puts what a line starts with: `:X`, the header's digits, `N`.
fn put_head(header: u32, out: &mut [u8], at: usize)
    requires { at + 11 ≤ length out.old }
    ensures { out.new ≡ placed at (58 ∷ 88 ∷ (hex_digits 8 header ++ 78 ∷ [])) out.old }
{
    put_pair(out, at, b':', b'X');
    hex_print::put_number(header, out, at + 2);
    put_byte(out, at + 10, b'N');
}

// Puts the frame's line and a newline into `out` from index `at` on.
fn put_line(frame: Frame, out: &mut [u8], at: usize)
    requires { (frame.len ≤ 8) × (at + (13 + frame.len * 2) ≤ length out.old) }
    ensures { out.new ≡ placed at (frame_text frame) out.old }
{
    let n = frame.len as usize;
    let bytes = frame.bytes;
    put_head(frame.header, out, at);
    hex_print::put_digits(&bytes[..n], out, at + 11);
    put_pair(out, at + (11 + n + n), b';', b'\n');
}

// Prints the frame's line and a newline into `out` from index `at` on and returns the index past it; where it does not
// fit, nothing is written. A frame of more than 8 bytes has no line.
pub fn print_frame(frame: Frame, out: &mut [u8], at: usize) -> usize
    ensures { Printed at (frame_text frame) out.old result out.new }
{
    if 8 < frame.len {
        return at;
    }
    let n = frame.len as usize;
    let size = 13 + n + n;
    if !has_room(out.len(), at, size) {
        return at;
    }
    put_line(frame, out, at);
    at + size
}

// Prints the answer to a bad line in the same way.
pub fn print_unknown(out: &mut [u8], at: usize) -> usize
    ensures { Printed at unknown_text out.old result out.new }
{
    if !has_room(out.len(), at, 2) {
        return at;
    }
    put_pair(out, at, b'?', b'\n');
    at + 2
}
