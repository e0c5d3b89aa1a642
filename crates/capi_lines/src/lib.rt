// GridConnect lines for a caller in C: what is read and what is carried lie in lent bytes.
#![tactic(auto)]

ghost use Rattle.std.specs.Prelude.{◌≡◌, [], ◌∷◌, ◌++◌, take, drop};
ghost use Rattle.can_frame_bytes.specs.Layout.{frame_in_bytes};
ghost use Rattle.gridconnect_print.specs.Line.{frame_text, Printed};
ghost use Rattle.gridconnect_parse.specs.Parsing.{parse_of};
ghost use Rattle.gridconnect_input.specs.Input.{carry_of, line, next_of, last_of};
ghost use Rattle.capi_lines.specs.Lines.{parsed_bytes, line_bytes, carry_in, SameBeginning, Step, CarryAgain};

use gridconnect_input::{Carry, Next};
use gridconnect_parse::Parsed;

// What a line stands for, in bytes.
pub type ParsedBytes = [u8; 20];

// What a step through an input gives, in bytes.
pub type LineBytes = [u8; 24];

// The beginning of a line that is carried from chunk to chunk, in bytes.
pub type CarryBytes = [u8; 32];

// A yes, as C has it in a bool.
const YES: u8 = 1;

#[tactic(auto, unfolding(crate::specs::Lines::parsed_bytes))]
fn parsed_in_bytes(parsed: Parsed) -> ParsedBytes
    ensures { result ≡ parsed_bytes parsed }
{
    let mut bytes = [0u8; 20];
    if let Some(frame) = parsed {
        let data = frame.bytes;
        bytes[0] = YES;
        buffer::put(
            &mut bytes,
            4,
            &can_frame_bytes::bytes_of(frame.header, frame.len, data),
        );
    }
    bytes
}

#[tactic(auto, unfolding(crate::specs::Lines::line_bytes))]
fn line_in_bytes(line: Option<Parsed>) -> LineBytes
    ensures { result ≡ line_bytes line }
{
    let mut bytes = [0u8; 24];
    if let Some(parsed) = line {
        bytes[0] = YES;
        buffer::put(&mut bytes, 4, &parsed_in_bytes(parsed));
    }
    bytes
}

// The text that a carry holds.
fn text_in(bytes: &CarryBytes) -> [u8; 29]
    ensures { result ≡ take 29 (drop 1 bytes.now) }
{
    let mut text = [0u8; 29];
    buffer::put(&mut text, 0, &bytes[1..30]);
    text
}

// The carry that the bytes hold, as far as it is read: of one that holds nothing the text is not copied.
fn carry_in(bytes: &CarryBytes) -> Carry
    ensures { SameBeginning result (carry_in bytes.now) }
{
    if bytes[0] == 0 {
        return gridconnect_input::start();
    }
    let text = text_in(bytes);
    Carry {
        len: bytes[0],
        text,
        spare: [0u8; 2],
    }
}

fn carry_in_bytes(len: u8, text: [u8; 29]) -> CarryBytes
    ensures { result ≡ len ∷ text ++ 0 ∷ 0 ∷ [] }
{
    let mut bytes = [0u8; 32];
    bytes[0] = len;
    buffer::put(&mut bytes, 1, &text);
    bytes
}

// What a step gives, and the carry afterwards.
#[tactic(auto, unfolding(crate::specs::Lines::carry_bytes))]
fn take_step(next: Next, carry: &mut CarryBytes, line: &mut LineBytes)
    ensures { Step next carry line }
{
    *line = line_in_bytes(next.line);
    let text = next.carry.text;
    *carry = carry_in_bytes(next.carry.len, text);
}

// Reads a line without its newline.
pub fn parse_line(line: &[u8], parsed: &mut ParsedBytes)
    ensures { parsed.new ≡ parsed_bytes (parse_of line.now) }
{
    *parsed = parsed_in_bytes(gridconnect_parse::parse_line(line));
}

// Prints a frame as a line with its newline, from an index of the buffer on.
pub fn print_frame(frame: &[u8; 16], out: &mut [u8], at: usize) -> usize
    ensures { Printed at (frame_text (frame_in_bytes frame.now 0)) out.old result out.new }
{
    gridconnect_print::print_frame(can_frame_bytes::frame_in(frame), out, at)
}

// A step that completes a line: the carry behind it is known. One that is copied waits in memory for what made it, and
// makes the reading of a chunk slower by a tenth.
fn completed(parsed: Parsed, at: usize) -> Next
    ensures { result ≡ line parsed (carry_of []) at }
{
    Next {
        line: Some(parsed),
        carry: gridconnect_input::start(),
        at,
    }
}

// The next line of an input that comes in chunks, from an index of the chunk on, and the index up to which the chunk is
// read; the carry is the beginning of a line that an earlier chunk left.
pub fn next_line(chunk: &[u8], from: usize, carry: &mut CarryBytes, line: &mut LineBytes) -> usize
    ensures value { result ≡ (next_of (carry_in carry.old) chunk.now from).at }
    ensures step { Step (next_of (carry_in carry.old) chunk.now from) carry line }
    ensures again { CarryAgain }
{
    let next = gridconnect_lines::next_line(chunk, from, carry_in(carry));
    if let Some(parsed) = next.line {
        take_step(completed(parsed, next.at), carry, line);
        return next.at;
    }
    take_step(next, carry, line);
    next.at
}

// The end of such an input.
pub fn last_line(carry: &mut CarryBytes, line: &mut LineBytes)
    ensures { Step (last_of (carry_in carry.old)) carry line }
{
    take_step(gridconnect_lines::last_line(carry_in(carry)), carry, line)
}
