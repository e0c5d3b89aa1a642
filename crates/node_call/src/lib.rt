// The three calls of a driver, from the caller to the answer and to what is left: a frame, a whole datagram, and a lone
// tick.
#![tactic(auto)]

ghost use Rattle.std.specs.Prelude.{◌≡◌};
ghost use Rattle.exec_spec.specs.Handling.{Fixed, Contents};
ghost use Rattle.exec_spec.specs.LentBoard.{board_of};
ghost use Rattle.node_spec.specs.CallerErrors.{later_check};
ghost use Rattle.node_spec.specs.FrameCall.{FrameEnds};
ghost use Rattle.node_spec.specs.NodeOrder.{NodeTheorems};
ghost use Rattle.node_spec.specs.DatagramCall.{DatagramEnds};
ghost use Rattle.node_spec.specs.TickCall.{tick_answer, TickLeaves};

use call_error::{CallError, Checked};
use exec_registers::Registers;
use exec_spec::Board;
use node_spec::FrameAnswer;
use reply_answer::Answer;

mod frames;

// The first error that applies of those that come after B7: there are none yet. Document 02's B10, B8 and B15 are to be
// asked here, of what is lent.
fn check_later() -> Checked
    ensures { (x : Fixed) (c : Contents) → result ≡ later_check x c }
{
    Ok(())
}

// Handles a frame that came from the bus at a tick. The caller's errors come first: those before B7 here, and B7 with
// those after it where the frame is joined, so that one search through the places does for all. The bytes of unfinished
// datagrams are in the pool, 72 for each place. Memory with the registers, and the pool with the places, stay
// parameters: a struct that holds two `&mut` would need, in each function that it is lent to, a clause that its fields
// are still the same loans, which is longer than the two parameters.
pub fn handle_frame(
    board: &Board<'_>,
    memory: &mut [u8],
    registers: &mut Registers,
    pool: &mut [u8; 576],
    places: &mut [u8; 64],
    tick: u16,
    header: u32,
    payload: &[u8],
    reply: &mut [u8],
) -> Result<FrameAnswer, CallError>
    ensures ends { FrameEnds (board_of board) memory registers pool places tick header payload reply result }
    ensures theorems { NodeTheorems (board_of board) }
{
    call_check::check_call(
        board.alias,
        board.spaces,
        board.flash.len(),
        memory.len(),
        reply.len(),
    )?;
    let later = check_later();
    let outcome = rx_join::join(pool, places, board.alias, tick, header, payload, later)?;
    Ok(frames::answer_outcome(board, memory, registers, &pool[..], outcome, payload, reply))
}

// Handles a datagram that is handed over whole.
pub fn handle_datagram(
    board: &Board<'_>,
    memory: &mut [u8],
    registers: &mut Registers,
    datagram: &[u8],
    reply: &mut [u8],
) -> Result<Answer, CallError>
    ensures { DatagramEnds (board_of board) memory registers datagram reply result }
{
    call_check::check_call(
        board.alias,
        board.spaces,
        board.flash.len(),
        memory.len(),
        reply.len(),
    )?;
    Ok(exec_datagram::handle(board, memory, registers, datagram, reply))
}

// Hears a tick that comes with no frame, unless B7 refuses the places. The bytes of unfinished datagrams
// are not touched: a place that is free holds none. A frame's search for its source's place tests B7 too
// (`rx_search::look_up`): here there is no source.
pub fn handle_tick(places: &mut [u8; 64], tick: u16) -> Checked
    ensures { TickLeaves places tick (tick_answer result) }
{
    if !rx_search::are_sound(places) {
        return Err(CallError::B7BadReceptionState);
    }
    rx_timeout::drop_due(places, tick);
    Ok(())
}
