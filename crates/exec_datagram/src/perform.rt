// A request performed: each command by the crate that knows it.
ghost use Rattle.std.specs.Prelude.{◌≡◌, length};
ghost use Rattle.cmd_fields.specs.Commands.{rest_of};
ghost use Rattle.reply_datagram.specs.Replies.{lock_reply, Sends};
ghost use Rattle.cmd_decode.specs.Decoding.{request_of};
ghost use Rattle.exec_spec.specs.Performing.{lock_tested, Performed};
ghost use Rattle.exec_registers.specs.Registers.{registers_in};
ghost use Rattle.exec_spec.specs.LentBoard.{board_of, contents_before, contents_after};

use cmd_decode::Command;
use cmd_fields::Form;
use exec_registers::Registers;
use exec_spec::Board;
use reply_answer::Answer;

// 0x88: the test-and-set with the ID that a datagram has, and the lock memory afterwards as the reply.
fn reserve(registers: &mut Registers, datagram: &[u8], out: &mut [u8]) -> Answer
    ensures left { registers_in registers.new ≡ lock_tested (registers_in registers.old) (rest_of datagram.now) }
    ensures reply { Sends (lock_reply (registers_in registers.new).lock) result out.old out.new }
    ensures six { length (registers_in registers.new).lock ≡ 6 }
{
    let held = exec_lock::test_and_set(
        exec_registers::lock_in(registers),
        cmd_view::rest(datagram),
    );
    exec_registers::put_lock(registers, held);
    reply_datagram::lock(out, held)
}

// What a request asks for. The bytes to write, the pairs and the lock's ID are the datagram's remaining bytes.
pub fn perform(
    board: &Board<'_>,
    memory: &mut [u8],
    registers: &mut Registers,
    form: Form,
    command: Command,
    datagram: &[u8],
    out: &mut [u8],
) -> Answer
    ensures { Performed (board_of board) (contents_before memory registers) form
        (request_of command (rest_of datagram.now)) result out.old out.new (contents_after memory registers) }
{
    match command {
        Command::Read {
            space,
            address,
            count,
        } => {
            let memory = &memory[..];
            crate::access::read(
                board.spaces,
                board.flash,
                memory,
                form,
                space,
                address,
                count,
                out,
            )
        }
        Command::Write { space, address } => {
            let bytes = cmd_view::rest(datagram);
            crate::access::write(board.spaces, memory, form, space, address, bytes, out)
        }
        Command::WriteMasked { space, address } => {
            let pairs = cmd_view::rest(datagram);
            crate::access::write_masked(board.spaces, memory, form, space, address, pairs, out)
        }
        Command::Options => reply_datagram::options(out, board.write_lengths, board.spaces),
        Command::Information { space } => {
            let found = space_lookup::find_space(board.spaces, space);
            reply_datagram::information(out, space, found)
        }
        Command::Lock => reserve(registers, datagram, out),
        Command::UpdateComplete => Answer::UpdateComplete,
    }
}
