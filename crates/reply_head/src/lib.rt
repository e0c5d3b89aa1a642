// A datagram that begins with a command, an address and perhaps a space byte. Its first bytes are stored straight into
// the lent buffer.
#![tactic(auto)]

ghost use Rattle.std.specs.Prelude.{◌≡◌, ◌∷◌, ◌++◌, ◌+◌, ◌≤◌, length};
ghost use Rattle.buffer.specs.Buffer.{over, placed};
ghost use Rattle.buffer.specs.BigEndian.{bytes_of};
ghost use Rattle.reply_answer.specs.Answers.{received_ok_reply, Agrees};
ghost use Rattle.cmd_fields.specs.Commands.{space_byte, head_bytes};

use cmd_fields::Form;
use reply_answer::Answer;

// How long the first bytes of a reply are. It always has an address, so that this is not `cmd_fields::head_length`, which
// is 2 where a command has none.
fn head_length(form: Form) -> usize
    ensures { (result ≡ 6 + length (space_byte form 0)) × (6 ≤ result) × (result ≤ 7) }
{
    match form {
        Form::Byte6 => 7,
        Form::NoSpace | Form::Fd | Form::Fe | Form::Ff => 6,
    }
}

// Byte 0x20, the command and the address.
fn put_command(reply: &mut [u8], command: u8, address: u32)
    requires { 6 ≤ length reply.old }
    ensures { reply.new ≡ over (0x20 ∷ command ∷ bytes_of address) reply.old }
{
    reply[0] = 0x20;
    reply[1] = command;
    buffer::put(reply, 2, &buffer::bytes(address));
}

// The space byte, if the command had one.
fn put_space(reply: &mut [u8], form: Form, space: u8)
    ensures { reply.new ≡ placed 6 (space_byte form space) reply.old }
{
    match form {
        Form::Byte6 => buffer::put(reply, 6, &[space]),
        Form::NoSpace | Form::Fd | Form::Fe | Form::Ff => {}
    }
}

// Writes a reply: its first bytes, with the low two bits of the form in its command, and behind them `src`; or nothing
// where the buffer has no room for all.
pub fn send(
    reply: &mut [u8],
    command: u8,
    form: Form,
    space: u8,
    address: u32,
    src: &[u8],
) -> Answer
    ensures { Agrees (received_ok_reply (head_bytes command form space address ++ src.now)) result reply.old
        reply.new }
{
    let n = head_length(form);
    if reply.len() < n || reply.len() - n < src.len() {
        return Answer::Replied(0);
    }
    put_command(reply, cmd_fields::with_form(command, form), address);
    put_space(reply, form, space);
    buffer::put(reply, n, src);
    Answer::Replied(n + src.len())
}
