// What the writer and the readers give, as the fields of the structs for C.
ghost use Rattle.std.specs.Prelude.{◌≡◌, Some};
ghost use Rattle.tool_read_spec.specs.declared.ReplyIn.TheVariants as found;
ghost use Rattle.tool_result_spec.specs.Numbers.{composed_of, acknowledged_of, rejection_of, form_number, text_range, access_fields, fields_of_reply};

use cmd_fields::Form;
use tool_read_ack::{Received, Rejection};
use tool_read_spec::{Information, Options, ReplyIn, Span, Target};
use tool_result_spec::{
    Acknowledged, ByteRange, Composed, InformationFields, OptionsFields, RejectionFields,
    ReplyFields,
};
use tool_write_spec::WriteError;

pub fn of_written(written: Result<usize, WriteError>) -> Composed
    ensures { result ≡ composed_of written }
{
    match written {
        Ok(length) => Composed { refusal: 0, length },
        Err(WriteError::OutOfRange) => Composed {
            refusal: 1,
            length: 0,
        },
        Err(WriteError::NoRoom) => Composed {
            refusal: 2,
            length: 0,
        },
    }
}

pub fn of_received(received: Option<Received>) -> Acknowledged
    ensures { result ≡ acknowledged_of received }
{
    match received {
        None => Acknowledged {
            refusal: 3,
            ..Acknowledged::default()
        },
        Some(Received { pending, timeout }) => Acknowledged {
            refusal: 0,
            pending,
            timeout,
        },
    }
}

// Where bytes stand, if there are any. An empty text is given, and has no bytes.
fn range(bytes: Option<Span>) -> ByteRange
    ensures { result ≡ text_range bytes }
{
    match bytes {
        None => ByteRange::default(),
        Some(Span { start, length }) => ByteRange {
            given: true,
            start,
            length,
        },
    }
}

pub fn of_rejection(rejection: Option<Rejection>) -> RejectionFields
    ensures { result ≡ rejection_of rejection }
{
    match rejection {
        None => RejectionFields {
            refusal: 3, // over 66 bytes
            ..RejectionFields::default()
        },
        Some(Rejection { code, further }) => RejectionFields {
            refusal: 0,
            code,
            further: range(Some(further)),
        },
    }
}

// How a space is named, as C's number of it.
fn form_number(form: Form) -> u8
    ensures { result ≡ form_number form }
{
    match form {
        Form::NoSpace => 4,
        Form::Byte6 => 0,
        Form::Fd => 1,
        Form::Fe => 2,
        Form::Ff => 3,
    }
}

// The reply to a read or a write.
fn access(kind: u32, target: Target, code: u16, bytes: Option<Span>) -> ReplyFields
    ensures { result ≡ access_fields kind target code (text_range bytes) }
{
    ReplyFields {
        kind,
        address: target.address,
        code,
        space: target.space,
        form: form_number(target.form),
        bytes: range(bytes),
        ..ReplyFields::default()
    }
}

#[tactic(auto, unfolding(tool_result_spec::specs::Numbers::fields_of_reply))]
fn options(options: Options) -> ReplyFields
    ensures { result ≡ fields_of_reply (Some (found.Options options)) }
{
    let (lowest_space, name) = match options.lowest {
        Some(lowest) => (lowest.space, lowest.name),
        None => (0, None),
    };
    ReplyFields {
        kind: 5,
        options: OptionsFields {
            commands: options.commands,
            write_lengths: options.write_lengths,
            highest_space: options.highest_space,
            has_lowest_space: options.lowest.is_some(),
            lowest_space,
        },
        bytes: range(name),
        ..ReplyFields::default()
    }
}

#[tactic(auto, unfolding(tool_result_spec::specs::Numbers::fields_of_reply))]
fn information(information: Information) -> ReplyFields
    ensures { result ≡ fields_of_reply (Some (found.Information information)) }
{
    ReplyFields {
        kind: 6,
        space: information.space,
        information: InformationFields {
            highest_address: information.highest_address,
            lowest_address: information.lowest_address.unwrap_or(0),
            flags: information.flags,
            present: information.present,
            has_lowest_address: information.lowest_address.is_some(),
        },
        bytes: range(information.description),
        ..ReplyFields::default()
    }
}

// Each kind of reply has its own number, and 0 is W3. The numbers stand here once, where C's struct is made, beside the
// kinds that they stand for: an enum of them would be a second list of the same kinds.
#[tactic(auto, unfolding(tool_result_spec::specs::Numbers::fields_of_reply))]
pub fn of_reply(reply: Option<ReplyIn>) -> ReplyFields
    ensures { result ≡ fields_of_reply reply }
{
    match reply {
        None => ReplyFields::default(),
        Some(ReplyIn::Read { target, data }) => access(1, target, 0, Some(data)),
        Some(ReplyIn::ReadFailure(given)) => access(2, given.target, given.code, given.message),
        Some(ReplyIn::WriteDone(target)) => access(3, target, 0, None),
        Some(ReplyIn::WriteFailure(given)) => access(4, given.target, given.code, given.message),
        Some(ReplyIn::Options(given)) => options(given),
        Some(ReplyIn::Information(given)) => information(given),
        Some(ReplyIn::Locked(id)) => ReplyFields {
            kind: 7,
            bytes: range(Some(id)),
            ..ReplyFields::default()
        },
    }
}
