// What comes of joining a frame, answered.
ghost use Rattle.std.specs.Prelude.{◌≡◌, ◌≤◌, length, Ok};
ghost use Rattle.rx_spec.specs.Books.{finish};
ghost use Rattle.rx_join_spec.specs.Joins.{brings, event_of, InsidePool};
ghost use Rattle.exec_spec.specs.LentBoard.{board_of};
ghost use Rattle.node_spec.specs.FrameCall.{AnswersCall};

use exec_registers::Registers;
use exec_spec::Board;
use node_spec::FrameAnswer;
use rx_join_spec::Outcome;

// A finished datagram, handled whole.
fn answer_datagram(
    board: &Board<'_>,
    memory: &mut [u8],
    registers: &mut Registers,
    datagram: &[u8],
    reply: &mut [u8],
) -> FrameAnswer
    requires { 72 ≤ length reply.old }
    ensures { AnswersCall (board_of board) (brings (finish datagram.now)) (Ok result)
        memory registers reply }
{
    FrameAnswer::Answered(exec_datagram::handle(board, memory, registers, datagram, reply))
}

// The answer to what joining gave, whatever it left of the reception state.
pub fn answer_outcome(
    board: &Board<'_>,
    memory: &mut [u8],
    registers: &mut Registers,
    pool: &[u8],
    outcome: Outcome,
    payload: &[u8],
    reply: &mut [u8],
) -> FrameAnswer
    requires { (72 ≤ length reply.old) × (length pool.now ≡ 576) × InsidePool outcome }
    ensures { AnswersCall (board_of board) (event_of (Ok outcome) payload.now pool.now)
        (Ok result) memory registers reply }
{
    match outcome {
        Outcome::Ignored => FrameAnswer::Ignored,
        Outcome::NoAnswer => FrameAnswer::Nothing,
        Outcome::TransportRefusal(refusal) => FrameAnswer::TransportRefusal(refusal.code()),
        Outcome::InFrame => answer_datagram(board, memory, registers, payload, reply),
        Outcome::InPool(from, end) => answer_datagram(
            board,
            memory,
            registers,
            &pool[from..end],
            reply,
        ),
    }
}
