// A line answered: its frame is handled, and what the board sends is printed.
ghost use Rattle.rx_place_spec.specs.PlaceBytes.{state_before, state_after};
ghost use Rattle.gridconnect_session_spec.specs.Turn.{answer_with_room, Prints};
ghost use Rattle.exec_spec.specs.LentBoard.{board_of, contents_before, contents_after};

use exec_registers::Registers;
use exec_spec::Board;
use gridconnect_parse::Parsed;

// A session has no clock: each of its frames comes at this tick.
const TICK: u16 = 0;

// A line that was read: its frame is handled and what the board sends is printed into `out` from index `at` on, or `?`.
// Returns the index past the text. Where `out` has no room for the longest answer, the line is not answered.
pub fn answer_line(
    board: &Board<'_>,
    memory: &mut [u8],
    registers: &mut Registers,
    pool: &mut [u8; 576],
    places: &mut [u8; 64],
    parsed: Parsed,
    out: &mut [u8],
    at: usize,
) -> usize
    ensures { Prints (answer_with_room (board_of board) (state_before places pool)
        (contents_before memory registers) parsed at out.old) at out.old result out.new
        (contents_after memory registers) (state_after places pool) }
{
    if !gridconnect_frames::has_room(at, out.len()) {
        return at;
    }
    let Some(frame) = parsed else {
        return gridconnect_print::print_unknown(out, at);
    };
    let bytes = frame.bytes;
    let mut reply = [0u8; 72];
    let mut frames = [0u8; 160];
    let sent = node_bus::answer_frame(
        board,
        memory,
        registers,
        pool,
        places,
        TICK,
        frame.header,
        buffer::part(&bytes, 0, frame.len as usize),
        &mut reply,
        &mut frames,
    );
    gridconnect_frames::print_frames(&frames, sent.count, out, at)
}
