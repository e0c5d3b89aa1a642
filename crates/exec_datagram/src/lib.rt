// A datagram handled whole: decoded, and what it asks for performed.
#![tactic(auto)]

ghost use Rattle.exec_spec.specs.Performing.{AllAnnounced, AllLeave};
ghost use Rattle.exec_spec.specs.Handling.{handle, Performs, HandleBounds};
ghost use Rattle.exec_spec.specs.LentBoard.{board_of, contents_before, contents_after};

use exec_registers::Registers;
use exec_spec::Board;
use reply_answer::Answer;

mod access;
mod perform;

// Handles a datagram; whoever calls it has tested for the errors B2 to B14. A reply that has no room in the buffer is
// not written.
pub fn handle(
    board: &Board<'_>,
    memory: &mut [u8],
    registers: &mut Registers,
    datagram: &[u8],
    out: &mut [u8],
) -> Answer
    ensures performs { Performs (handle (board_of board) (contents_before memory registers)
        datagram.now) result out.old out.new (contents_after memory registers) }
    ensures bounds { HandleBounds }
    ensures announced { AllAnnounced }
    ensures leaves { AllLeave }
{
    match cmd_decode::decode(datagram) {
        Err(rejection) => Answer::Rejected(reply_answer::code_of(rejection)),
        Ok((form, command)) => perform::perform(
            board, memory, registers, form, command, datagram, out,
        ),
    }
}
