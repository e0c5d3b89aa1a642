// A frame from its arrival on the bus to the frames that answer it.
#![tactic(auto)]

ghost use Rattle.exec_spec.specs.LentBoard.{board_of};
ghost use Rattle.node_send.specs.Sending.{BusEnds, BusOrder};

use call_error::CallError;
use exec_registers::Registers;
use exec_spec::Board;
use node_spec::FrameAnswer;

// What comes of a frame, and the number of frames to send.
#[derive(Drop)]
pub struct Sent {
    pub answer: Result<FrameAnswer, CallError>,
    pub count: usize,
}

// Handles a frame from the bus, and makes the frames that the board sends for it.
pub fn answer_frame(
    board: &Board<'_>,
    memory: &mut [u8],
    registers: &mut Registers,
    pool: &mut [u8; 576],
    places: &mut [u8; 64],
    tick: u16,
    header: u32,
    payload: &[u8],
    reply: &mut [u8],
    frames: &mut [u8; 160],
) -> Sent
    ensures ends { BusEnds (board_of board) memory registers pool places tick header payload reply frames
        result.answer result.count }
    ensures order { BusOrder (board_of board) }
{
    let answer = node_call::handle_frame(
        board, memory, registers, pool, places, tick, header, payload, reply,
    );
    let tool = can_frame::source_of(header);
    let count = node_send::frames_to_send(answer, &reply[..], board.alias, tool, frames);
    Sent { answer, count }
}
