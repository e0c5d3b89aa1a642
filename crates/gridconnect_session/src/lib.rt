// Text to text: the lines of an input that comes in chunks, answered by the board as far as the buffer has room.
#![tactic(auto)]

ghost use Rattle.std.specs.Prelude.{◌+◌, ◌≤◌, length};
ghost use Rattle.rx_place_spec.specs.PlaceBytes.{state_before, state_after};
ghost use Rattle.gridconnect_input.specs.Input.{listed};
ghost use Rattle.gridconnect_session_spec.specs.Turn.{Prints};
ghost use Rattle.gridconnect_session_spec.specs.Session.{answer_lines, AnyChunks};
ghost use Rattle.gridconnect_session.specs.Chunks.{at_end, ChunkAnswered};
ghost use Rattle.exec_spec.specs.LentBoard.{board_of, contents_before, contents_after};

use exec_registers::Registers;
use exec_spec::Board;
use gridconnect_input::Carry;
use gridconnect_parse::Parsed;

mod line;

// How far a chunk is answered: the index up to which it was read, the carry there, and the index past the text in the
// buffer.
#[derive(Drop)]
pub struct Progress {
    pub at: usize,
    pub carry: Carry,
    pub end: usize,
}

// What a step of the line splitter gives: the line that it completes, if any, is answered.
fn answer_next(
    board: &Board<'_>,
    memory: &mut [u8],
    registers: &mut Registers,
    pool: &mut [u8; 576],
    places: &mut [u8; 64],
    line: Option<Parsed>,
    out: &mut [u8],
    at: usize,
) -> usize
    requires { at + 290 ≤ length out.old }
    ensures { Prints (answer_lines (board_of board) (state_before places pool)
        (contents_before memory registers) (listed line)) at out.old result out.new
        (contents_after memory registers) (state_after places pool) }
{
    let Some(parsed) = line else {
        return at;
    };
    line::answer_line(board, memory, registers, pool, places, parsed, out, at)
}

// Answers the lines of a chunk from index `from` on, behind what an earlier chunk left, as far as `out` has room: their
// text stands in front of `out`. Where the chunk is not read to its end, the caller writes the text and calls again. The
// index goes on by what was read, and not by one.
pub fn answer_chunk(
    board: &Board<'_>,
    memory: &mut [u8],
    registers: &mut Registers,
    pool: &mut [u8; 576],
    places: &mut [u8; 64],
    chunk: &[u8],
    from: usize,
    begun: Carry,
    out: &mut [u8],
) -> Progress
    ensures answers { ChunkAnswered (board_of board) (state_before places pool)
        (contents_before memory registers) begun chunk.now from result out.old out.new
        (contents_after memory registers) (state_after places pool) }
    ensures cuts { AnyChunks (board_of board) }
{
    let mut carry = begun;
    let mut at = from;
    let mut end: usize = 0;
    while at < chunk.len() {
        if !gridconnect_frames::has_room(end, out.len()) {
            return Progress { at, carry, end };
        }
        let next = gridconnect_lines::next_line(chunk, at, carry);
        end = answer_next(board, memory, registers, pool, places, next.line, out, end);
        carry = next.carry;
        at = next.at;
    }
    Progress { at, carry, end }
}

// The end of the input: a last line that lacks its newline is answered, where `out` has room for the longest answer.
// Returns the length of the text, which stands in front of `out`.
pub fn answer_end(
    board: &Board<'_>,
    memory: &mut [u8],
    registers: &mut Registers,
    pool: &mut [u8; 576],
    places: &mut [u8; 64],
    carry: Carry,
    out: &mut [u8],
) -> usize
    ensures { Prints (answer_lines (board_of board) (state_before places pool)
        (contents_before memory registers) (at_end carry out.old)) 0 out.old result out.new
        (contents_after memory registers) (state_after places pool) }
{
    if !gridconnect_frames::has_room(0, out.len()) {
        return 0;
    }
    let last = gridconnect_lines::last_line(carry);
    answer_next(board, memory, registers, pool, places, last.line, out, 0)
}
