// Why a request is not written, and how the writer names a space.
#![tactic(auto)]

ghost use Rattle.std.specs.Prelude.{◌≡◌};
ghost use Rattle.tool_write_spec.specs.Writing.{form_for};

use cmd_fields::Form;

// Why a command is not written. W1: a count or length is out of range; W2: the lent buffer is under 72 bytes.
#[derive(Clone, Copy)]
pub enum WriteError {
    OutOfRange,
    NoRoom,
}

// The form in which the writer names a space. It is no `From<u8>`: a board takes other forms of the same space too.
pub fn form_for(space: u8) -> Form
    ensures { result ≡ form_for space }
{
    match space {
        0xFD => Form::Fd,
        0xFE => Form::Fe,
        0xFF => Form::Ff,
        _ => Form::Byte6,
    }
}
