// A datagram read as a request, apart from any board.
#![tactic(auto)]

ghost use Rattle.std.specs.Prelude.{◌≡◌, true, false, get_or, length, MatchResult};
ghost use Rattle.cmd_fields.specs.Commands.{kind_of_command, rest_of};
ghost use Rattle.cmd_decode.specs.Decoding.{decode, reading_of, decode_kind, decode_read, decode_write, decode_masked, of_fixed_length, HeadOf};

use cmd_fields::{Form, Kind};
use reply_answer::Rejection;

// Byte 0 of every datagram of this protocol.
const MEMORY_CONFIGURATION: u8 = 0x20;

// The most bytes that a datagram may have.
const LONGEST_DATAGRAM: usize = 72;

// A command with its numbers. The bytes to write, the pairs and the lock's ID stay in the datagram: they are its
// remaining bytes.
#[derive(Clone, Copy)]
pub enum Command {
    Read { space: u8, address: u32, count: u8 },
    Write { space: u8, address: u32 },
    WriteMasked { space: u8, address: u32 },
    Options,
    Information { space: u8 },
    Lock,
    UpdateComplete,
}

// What a read, a write and a masked write begin with, and how many bytes remain behind it.
#[derive(Clone, Copy)]
struct Head {
    form: Form,
    space: u8,
    address: u32,
    remaining: usize,
}

// What every length, every number of pairs and every count must be, or the datagram is rejected.
fn check(right: bool) -> Result<(), Rejection>
    ensures { MatchResult result (λ _. right ≡ true) (λ e. (e ≡ Rejection.InvalidArguments) × (right ≡ false)) }
{
    if right {
        Ok(())
    } else {
        Err(Rejection::InvalidArguments)
    }
}

// The head of a read, a write or a masked write, behind which at least one byte remains. The length is tested before
// the view is asked: a datagram that is longer than its head has every byte that the view reads, and no test for a
// missing one is left.
fn head_of(datagram: &[u8]) -> Result<Head, Rejection>
    ensures { MatchResult result (λ h. HeadOf h datagram.now) (λ e. (e ≡ Rejection.InvalidArguments) × (length (rest_of datagram.now) ≡ 0)) }
{
    let form = cmd_fields::form_in(datagram);
    let length = cmd_fields::head_length(form);
    check(length < datagram.len())?;
    let target = cmd_view::target_of(datagram);
    Ok(Head {
        form,
        space: target.space,
        address: target.address,
        remaining: datagram.len() - length,
    })
}

// A read: exactly one count byte, which is then the last.
fn decode_read(datagram: &[u8]) -> Result<(Form, Command), Rejection>
    ensures { reading_of result datagram.now ≡ decode_read datagram.now }
{
    let head = head_of(datagram)?;
    check(head.remaining == 1)?;
    let count = cmd_limits::count_in(datagram[datagram.len() - 1]);
    check(cmd_limits::count_fits(count))?;
    Ok((
        head.form,
        Command::Read {
            space: head.space,
            address: head.address,
            count,
        },
    ))
}

// A write: its bytes are what remains.
fn decode_write(datagram: &[u8]) -> Result<(Form, Command), Rejection>
    ensures { reading_of result datagram.now ≡ decode_write datagram.now }
{
    let head = head_of(datagram)?;
    check(cmd_limits::bytes_fit(head.remaining))?;
    Ok((
        head.form,
        Command::Write {
            space: head.space,
            address: head.address,
        },
    ))
}

// A masked write: its pairs are what remains.
fn decode_masked(datagram: &[u8]) -> Result<(Form, Command), Rejection>
    ensures { reading_of result datagram.now ≡ decode_masked datagram.now }
{
    let head = head_of(datagram)?;
    check(cmd_limits::pairs_fit(head.remaining))?;
    Ok((
        head.form,
        Command::WriteMasked {
            space: head.space,
            address: head.address,
        },
    ))
}

// A command of a fixed length.
fn of_length(datagram: &[u8], length: usize, command: Command) -> Result<(Form, Command), Rejection>
    ensures { result ≡ of_fixed_length length datagram.now command }
{
    check(datagram.len() == length)?;
    Ok((Form::NoSpace, command))
}

// Space information: three bytes, the last the space's number.
fn decode_information(datagram: &[u8]) -> Result<(Form, Command), Rejection>
    ensures { result ≡ of_fixed_length 3 datagram.now (Command.Information (get_or datagram.now 2 0)) }
{
    check(datagram.len() == 3)?;
    Ok((Form::NoSpace, Command::Information { space: datagram[2] }))
}

// A datagram by the kind of its command.
fn decode_kind(datagram: &[u8]) -> Result<(Form, Command), Rejection>
    ensures { reading_of result datagram.now ≡ decode_kind (kind_of_command (get_or datagram.now 1 0)) datagram.now }
{
    match cmd_fields::kind_of(cmd_fields::command_in(datagram)) {
        Kind::Read => decode_read(datagram),
        Kind::Write => decode_write(datagram),
        Kind::WriteMasked => decode_masked(datagram),
        Kind::Options => of_length(datagram, 2, Command::Options),
        Kind::Information => decode_information(datagram),
        Kind::Lock => of_length(datagram, 8, Command::Lock),
        Kind::UpdateComplete => of_length(datagram, 2, Command::UpdateComplete),
        Kind::Unknown => Err(Rejection::UnknownCommand),
    }
}

// Reads a datagram that was handed over whole.
pub fn decode(datagram: &[u8]) -> Result<(Form, Command), Rejection>
    ensures { reading_of result datagram.now ≡ decode datagram.now }
{
    let length = datagram.len();
    check(0 < length)?;
    check(length <= LONGEST_DATAGRAM)?;
    if datagram[0] != MEMORY_CONFIGURATION {
        return Err(Rejection::UnknownDatagramType);
    }
    check(1 < length)?;
    decode_kind(datagram)
}
