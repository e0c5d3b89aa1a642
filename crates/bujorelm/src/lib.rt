// The edge to C: what a CAN driver calls. Everything is lent: a slice is a pointer and then a length, an array of a
// fixed length is a pointer. What comes of a call is numbers in bytes that are lent too: nothing goes over by value but
// numbers of at most 64 bits.
#![tactic(auto)]

ghost use Rattle.std.specs.Prelude.{◌≡◌, List, ℕ};
ghost use Rattle.tx_cut_spec.specs.Cutting.{cut_frames, RefusedBy};
ghost use Rattle.tx_transport.specs.Transport.{received_ok, rejected_with};
ghost use Rattle.exec_spec.specs.Handling.{Contents};
ghost use Rattle.can_frame_bytes.specs.Layout.{frame_in_bytes};
ghost use Rattle.gridconnect_print.specs.Line.{frame_text, Printed};
ghost use Rattle.gridconnect_parse.specs.Parsing.{parse_of};
ghost use Rattle.gridconnect_input.specs.Input.{next_of, last_of};
ghost use Rattle.capi_lines.specs.Lines.{parsed_bytes, carry_in, Step};
ghost use Rattle.bujorelm.specs.Returns.{DatagramReturns, FrameReturns, TickReturns, FramesMade};

use capi_lines::{CarryBytes, LineBytes, ParsedBytes};
use capi_numbers::ResultBytes;
use exec_registers::Registers;
use exec_spec::Board;

// The version of this edge, major in the upper 16 bits and minor in the lower: a header of the same major and of no
// greater minor fits.
const VERSION: u32 = 0x00060000;

#[unsafe(no_mangle)]
pub extern "C" fn bujorelm_version() -> u32
    ensures { result ≡ 0x00060000 }
{
    VERSION
}

// Handles a frame from the bus, and makes the frames that the board sends for it. The spaces are a table of 16 bytes
// each, the places 8 bytes each, the frames 16 bytes each.
#[unsafe(no_mangle)]
pub extern "C" fn bujorelm_handle_frame(
    alias: u16,
    write_lengths: u8,
    spaces: &[u8],
    flash: &[u8],
    memory: &mut [u8],
    registers: &mut Registers,
    pool: &mut [u8; 576],
    places: &mut [u8; 64],
    tick: u16,
    header: u32,
    payload: &[u8],
    reply: &mut [u8],
    frames: &mut [u8; 160],
    res: &mut ResultBytes,
)
    ensures { FrameReturns alias write_lengths spaces flash memory registers pool places tick header payload reply frames
        res }
{
    let board = Board {
        alias,
        write_lengths,
        spaces,
        flash,
    };
    let sent = node_bus::answer_frame(
        &board, memory, registers, pool, places, tick, header, payload, reply, frames,
    );
    capi_result::of_frame(sent.answer, sent.count, res)
}

// Hears a tick that comes with no frame: the only error of the caller that it tests is B7.
#[unsafe(no_mangle)]
pub extern "C" fn bujorelm_handle_tick(places: &mut [u8; 64], tick: u16, res: &mut ResultBytes)
    ensures { (pool : List ℕ) (c : Contents) → TickReturns places tick res pool c }
{
    capi_result::of_tick(node_call::handle_tick(places, tick), res)
}

// Handles a datagram that is handed over whole.
#[unsafe(no_mangle)]
pub extern "C" fn bujorelm_handle_datagram(
    alias: u16,
    write_lengths: u8,
    spaces: &[u8],
    flash: &[u8],
    memory: &mut [u8],
    registers: &mut Registers,
    datagram: &[u8],
    reply: &mut [u8],
    res: &mut ResultBytes,
)
    ensures { DatagramReturns alias write_lengths spaces flash memory registers datagram reply res }
{
    let board = Board {
        alias,
        write_lengths,
        spaces,
        flash,
    };
    let handled = node_call::handle_datagram(&board, memory, registers, datagram, reply);
    capi_result::of_handled(handled, res)
}

// Cuts a reply of the board into frames to a tool, and gives their number; 0 where B9 refuses it.
#[unsafe(no_mangle)]
pub extern "C" fn bujorelm_cut(
    datagram: &[u8],
    board: u16,
    tool: u16,
    frames: &mut [u8; 160],
) -> usize
    ensures frames { FramesMade (cut_frames datagram.now tool board) frames result }
    ensures refusal { RefusedBy datagram.now tool board result }
{
    tx_transport::cut_reply(board, tool, datagram, frames)
}

// The frame of Received OK with its flags, and the number of frames made.
#[unsafe(no_mangle)]
pub extern "C" fn bujorelm_received_ok(
    board: u16,
    tool: u16,
    flags: u8,
    frames: &mut [u8; 160],
) -> usize
    ensures { FramesMade (received_ok board tool flags) frames result }
{
    tx_transport::received_ok(board, tool, flags, frames)
}

// The frame of Rejected with its code, and the number of frames made.
#[unsafe(no_mangle)]
pub extern "C" fn bujorelm_rejected(
    board: u16,
    tool: u16,
    code: u16,
    frames: &mut [u8; 160],
) -> usize
    ensures { FramesMade (rejected_with board tool code) frames result }
{
    tx_transport::rejected(board, tool, code, frames)
}

// Reads a GridConnect line without its newline.
#[unsafe(no_mangle)]
pub extern "C" fn bujorelm_parse_line(line: &[u8], parsed: &mut ParsedBytes)
    ensures { parsed.new ≡ parsed_bytes (parse_of line.now) }
{
    capi_lines::parse_line(line, parsed)
}

// Prints a frame as a GridConnect line with its newline, from an index of the buffer on, and gives the index past it.
#[unsafe(no_mangle)]
pub extern "C" fn bujorelm_print_frame(frame: &[u8; 16], out: &mut [u8], at: usize) -> usize
    ensures { Printed at (frame_text (frame_in_bytes frame.now 0)) out.old result out.new }
{
    capi_lines::print_frame(frame, out, at)
}

// The next line of an input that comes in chunks, from an index of the chunk on, and the index up to which the chunk is
// read. The carry is the beginning of a line that an earlier chunk left, and becomes what this one leaves.
#[unsafe(no_mangle)]
pub extern "C" fn bujorelm_next_line(
    chunk: &[u8],
    from: usize,
    carry: &mut CarryBytes,
    line: &mut LineBytes,
) -> usize
    ensures value { result ≡ (next_of (carry_in carry.old) chunk.now from).at }
    ensures step { Step (next_of (carry_in carry.old) chunk.now from) carry line }
{
    capi_lines::next_line(chunk, from, carry, line)
}

// The end of such an input.
#[unsafe(no_mangle)]
pub extern "C" fn bujorelm_last_line(carry: &mut CarryBytes, line: &mut LineBytes)
    ensures { Step (last_of (carry_in carry.old)) carry line }
{
    capi_lines::last_line(carry, line)
}
