// An input that comes in chunks: where a line ends, and the beginning of a line that is carried from chunk to chunk.
#![tactic(auto)]

ghost use Rattle.std.specs.Prelude.{◌≡◌, ◌≤◌, ◌+◌, [], ◌++◌, length};
ghost use Rattle.gridconnect_input.specs.Input.{carry_with, carry_of, begun_of, AnyCuts};
ghost use Rattle.gridconnect_input.specs.Newline.{until_newline};

use gridconnect_parse::Parsed;

// The beginning of an unfinished line, cut off at 29 bytes: one more than a good line has, so that a longer one is
// known to be bad. A carry with a greater `len`, which no function here returns, is that of such a line. The spare
// bytes are zeros in what is returned and are not read: with them a carry has 32 bytes, which are moved as two halves
// that do not overlap.
#[repr(C)]
#[derive(Clone, Copy)]
pub struct Carry {
    pub len: u8,
    pub text: [u8; 29],
    pub spare: [u8; 2],
}

// A step through a chunk: the line that it completes, if any, the carry afterwards, and the index up to which the chunk
// was read.
#[derive(Clone, Copy)]
pub struct Next {
    pub line: Option<Parsed>,
    pub carry: Carry,
    pub at: usize,
}

// The carry before any input.
pub fn start() -> Carry
    ensures carry { result ≡ carry_of [] }
    ensures cuts { AnyCuts }
{
    Carry {
        len: 0,
        text: [0u8; 29],
        spare: [0u8; 2],
    }
}

// The carry with a part of the same line behind it, cut off at 29 bytes.
pub fn append(carry: Carry, part: &[u8]) -> Carry
    ensures { result ≡ carry_with (begun_of carry ++ part.now) }
{
    let begun = carry.text;
    let n = (carry.len as usize).min(29);
    let k = (29 - n).min(part.len());
    let mut text = [0u8; 29];
    buffer::put(&mut text, 0, &begun[..n]);
    buffer::put(&mut text, n, &part[..k]);
    Carry {
        len: (n + k) as u8,
        text,
        spare: [0u8; 2],
    }
}

// The index of the first newline, or the length. By index: digits come this way, and before it is optimised an iterator over
// a slice has a product.
fn newline_in(bytes: &[u8]) -> usize
    ensures value { result ≡ length (until_newline bytes.now) }
    ensures within { result ≤ length bytes.now }
{
    for i in 0..bytes.len() {
        if bytes[i] == b'\n' {
            return i;
        }
    }
    bytes.len()
}

// How many bytes stand before the first newline, or in all. Four are looked at in each turn: `position` over all bytes
// takes a ninth longer for a chunk of lines.
pub fn line_size(rest: &[u8]) -> usize
    ensures { result ≡ length (until_newline rest.now) }
{
    let mut i: usize = 0;
    while 4 <= rest.len() - i {
        if rest[i] == b'\n' {
            return i;
        }
        if rest[i + 1] == b'\n' {
            return i + 1;
        }
        if rest[i + 2] == b'\n' {
            return i + 2;
        }
        if rest[i + 3] == b'\n' {
            return i + 3;
        }
        i += 4;
    }
    i + newline_in(&rest[i..])
}
