// The fields of a datagram, each read from the datagram itself.
#![tactic(auto)]

ghost use Rattle.std.specs.Prelude.{◌≡◌, ◌≤◌, get_or, drop};
ghost use Rattle.cmd_fields.specs.Commands.{kind_of_command, form_of, form_bits, with_form, form_in, head_length, address_of, space_of};

// Where a command names its space: nowhere, in byte 6, or by the low two bits 1, 2, 3 of byte 1.
#[derive(Clone, Copy)]
pub enum Form {
    NoSpace,
    Byte6,
    Fd,
    Fe,
    Ff,
}

// The kinds of commands, by byte 1.
#[derive(Clone, Copy)]
pub enum Kind {
    Read,
    Write,
    WriteMasked,
    Options,
    Information,
    Lock,
    UpdateComplete,
    Unknown,
}

// A command has a kind and a form. Neither is the command itself in another type, so they are two functions with names
// and no `From<u8>`, which would say less at a call.
#[tactic(auto, unfolding(crate::specs::Commands::kind_of_command))]
pub fn kind_of(command: u8) -> Kind
    ensures { result ≡ kind_of_command command }
{
    match command {
        0x40..=0x43 => Kind::Read,
        0x00..=0x03 => Kind::Write,
        0x08..=0x0B => Kind::WriteMasked,
        0x80 => Kind::Options,
        0x84 => Kind::Information,
        0x88 => Kind::Lock,
        0xA8 => Kind::UpdateComplete,
        _ => Kind::Unknown,
    }
}

pub fn form_of(command: u8) -> Form
    ensures { result ≡ form_of command }
{
    if 0x80 <= command {
        return Form::NoSpace;
    }
    match command % 4 {
        0 => Form::Byte6,
        1 => Form::Fd,
        2 => Form::Fe,
        _ => Form::Ff,
    }
}

// The low two bits of a form. Two forms have the same, so they are no discriminants.
fn form_bits(form: Form) -> u8
    ensures { (result ≡ form_bits form) × (result ≤ 3) }
{
    match form {
        Form::NoSpace | Form::Byte6 => 0,
        Form::Fd => 1,
        Form::Fe => 2,
        Form::Ff => 3,
    }
}

// A command with the low two bits of a form in place of its own.
pub fn with_form(command: u8, form: Form) -> u8
    ensures { result ≡ with_form command form }
{
    command / 4 * 4 + form_bits(form)
}

// How many bytes stand before the remaining ones.
pub fn head_length(form: Form) -> usize
    ensures { result ≡ head_length form }
{
    match form {
        Form::NoSpace => 2,
        Form::Byte6 => 7,
        Form::Fd | Form::Fe | Form::Ff => 6,
    }
}

// A byte that a datagram has not is read as 0: decoding refuses a datagram that is too short by its length, and uses no
// such 0.
pub fn command_in(datagram: &[u8]) -> u8
    ensures { result ≡ get_or datagram.now 1 0 }
{
    buffer::byte_in(datagram, 1)
}

pub fn form_in(datagram: &[u8]) -> Form
    ensures { result ≡ form_in datagram.now }
{
    form_of(command_in(datagram))
}

pub fn address_in(datagram: &[u8]) -> u32
    ensures { result ≡ address_of datagram.now }
{
    buffer::number(
        buffer::byte_in(datagram, 2),
        buffer::byte_in(datagram, 3),
        buffer::byte_in(datagram, 4),
        buffer::byte_in(datagram, 5),
    )
}

// The number of the space; 0 where the command names none.
pub fn space_in(datagram: &[u8], command: u8) -> u8
    ensures { result ≡ space_of (form_of command) datagram.now }
{
    match form_of(command) {
        Form::NoSpace => 0,
        Form::Byte6 => buffer::byte_in(datagram, 6),
        Form::Fd => 0xFD,
        Form::Fe => 0xFE,
        Form::Ff => 0xFF,
    }
}

// The bytes behind a datagram's command, address and space byte.
pub fn remaining_in(datagram: &[u8], command: u8) -> &[u8]
    ensures { result.now ≡ drop (head_length (form_of command)) datagram.now }
{
    &datagram[head_length(form_of(command)).min(datagram.len())..]
}
