// The tool's writer: a function for each request of document 01, which writes the request's one form into a lent
// buffer.
#![tactic(auto, unfolding(tool_write_spec::specs::Writing::writing, tool_write_spec::specs::Writing::in_range, tool_write_spec::specs::Writing::command_for))]

ghost use Rattle.std.specs.Prelude.{◌≡◌, true, cond, ◌++◌, ◌≤◌, ◌%◌, eqb, length, Ok, Err};
ghost use Rattle.cmd_fields.specs.Commands.{read, write, write_masked, options, information, reserve, update_complete, pairs_of};
ghost use Rattle.tool_write_spec.specs.Writing.{opening, in_room, command_answer, command_buffer, CommandWrites};

use tool_write_spec::WriteError;

// The least room that a lent buffer has: that of the longest datagram.
const SMALLEST_BUFFER: usize = 72;

// An error, unless the test passes.
fn check(passes: bool, error: WriteError) -> Result<(), WriteError>
    ensures { result ≡ cond passes (Ok tt) (Err error) }
{
    if passes { Ok(()) } else { Err(error) }
}

// A command with an address, and what stands behind it: put if the buffer has room.
fn put_access(
    buffer: &mut [u8],
    command: u8,
    space: u8,
    address: u32,
    content: &[u8],
) -> Result<usize, WriteError>
    requires { length content.now ≤ 64 }
    ensures answer { result ≡ command_answer (in_room (opening command space address ++ content.now)
        (length buffer.old)) }
    ensures buffer { buffer.new ≡ command_buffer (in_room (opening command space address ++ content.now)
        (length buffer.old)) buffer.old }
{
    check(SMALLEST_BUFFER <= buffer.len(), WriteError::NoRoom)?;
    let form = tool_write_spec::form_for(space);
    let _ = reply_head::send(buffer, command, form, space, address, content);
    Ok(cmd_fields::head_length(form) + content.len())
}

// A command without an address, put if the buffer has room.
#[tactic(auto, using(buffer::proofs::Laws::put_one))]
fn put_whole(buffer: &mut [u8], command: &[u8]) -> Result<usize, WriteError>
    requires { length command.now ≤ 72 }
    ensures answer { result ≡ command_answer (in_room command.now (length buffer.old)) }
    ensures buffer { buffer.new ≡ command_buffer (in_room command.now (length buffer.old)) buffer.old }
{
    check(SMALLEST_BUFFER <= buffer.len(), WriteError::NoRoom)?;
    buffer::put(buffer, 0, command);
    Ok(command.len())
}

// A read of `count` bytes.
pub fn write_read(
    space: u8,
    address: u32,
    count: u8,
    buffer: &mut [u8],
) -> Result<usize, WriteError>
    ensures { CommandWrites true (read space address count) result buffer.old buffer.new }
{
    check(cmd_limits::count_fits(count), WriteError::OutOfRange)?;
    put_access(buffer, 0x40, space, address, &[count])
}

// A write of these bytes.
pub fn write_write(
    space: u8,
    address: u32,
    bytes: &[u8],
    buffer: &mut [u8],
) -> Result<usize, WriteError>
    ensures { CommandWrites true (write space address bytes.now) result buffer.old buffer.new }
{
    check(cmd_limits::bytes_fit(bytes.len()), WriteError::OutOfRange)?;
    put_access(buffer, 0x00, space, address, bytes)
}

// A masked write of these pairs, each a mask and then its data.
pub fn write_masked(
    space: u8,
    address: u32,
    pairs: &[u8],
    buffer: &mut [u8],
) -> Result<usize, WriteError>
    ensures { CommandWrites (eqb (length pairs.now % 2) 0) (write_masked space address (pairs_of pairs.now)) result
        buffer.old buffer.new }
{
    check(cmd_limits::pairs_fit(pairs.len()), WriteError::OutOfRange)?;
    put_access(buffer, 0x08, space, address, pairs)
}

// The configuration options.
pub fn write_options(buffer: &mut [u8]) -> Result<usize, WriteError>
    ensures { CommandWrites true options result buffer.old buffer.new }
{
    put_whole(buffer, &[0x20, 0x80])
}

// The information on a space.
pub fn write_information(space: u8, buffer: &mut [u8]) -> Result<usize, WriteError>
    ensures { CommandWrites true (information space) result buffer.old buffer.new }
{
    put_whole(buffer, &[0x20, 0x84, space])
}

// The lock, with an ID of six bytes; a zero ID releases it.
pub fn write_lock(id: &[u8], buffer: &mut [u8]) -> Result<usize, WriteError>
    ensures { CommandWrites true (reserve id.now) result buffer.old buffer.new }
{
    check(id.len() == 6, WriteError::OutOfRange)?;
    put_whole(
        buffer,
        &[0x20, 0x88, id[0], id[1], id[2], id[3], id[4], id[5]],
    )
}

// Update Complete.
pub fn write_update_complete(buffer: &mut [u8]) -> Result<usize, WriteError>
    ensures { CommandWrites true update_complete result buffer.old buffer.new }
{
    put_whole(buffer, &[0x20, 0xA8])
}
