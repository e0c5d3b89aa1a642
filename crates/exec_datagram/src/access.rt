// Reads, writes and masked writes of a space.
ghost use Rattle.std.specs.Prelude.{◌≡◌, true, false, ◌≤◌, ◌/◌, length};
ghost use Rattle.space_lookup.specs.Description.{find_space};
ghost use Rattle.space_table.specs.Table.{spaces_in};
ghost use Rattle.cmd_fields.specs.Commands.{pairs_of};
ghost use Rattle.reply_answer.specs.Answers.{Agrees};
ghost use Rattle.reply_datagram.specs.Replies.{in_bytes};
ghost use Rattle.space_reach.specs.Reach.{access, index_of, WritesFit};
ghost use Rattle.exec_store.specs.Storing.{store_bytes, store_masked};
ghost use Rattle.exec_spec.specs.Access.{bytes_read, read_result, WriteEnds};

use cmd_fields::Form;
use reply_answer::Answer;
use space_table::Space;

// The bytes of a space from an address of it on, up to `count`.
fn bytes_in<'a>(
    space: Space,
    flash: &'a [u8],
    memory: &'a [u8],
    address: u32,
    count: u8,
) -> &'a [u8]
    requires { space.lowest ≤ address }
    ensures { result.now ≡ bytes_read flash.now memory.now space address count }
{
    let start = (address - space.lowest) as usize;
    buffer::part(
        space_lookup::window(space, flash, memory),
        start,
        count as usize,
    )
}

// Where an address of a space stands in its store.
fn index_of(space: Space, address: u32) -> usize
    requires { space.lowest ≤ address }
    ensures { result ≡ index_of space address }
{
    space.offset as usize + (address - space.lowest) as usize
}

// Reads up to `count` bytes of the space with that number.
pub fn read<'a>(
    spaces: &[u8],
    flash: &'a [u8],
    memory: &'a [u8],
    form: Form,
    number: u8,
    address: u32,
    count: u8,
    out: &mut [u8],
) -> Answer
    ensures { Agrees (in_bytes (read_result flash.now memory.now form number address count
        (access false (find_space (spaces_in spaces.now) number) address 1))) result out.old out.new }
{
    match space_reach::reach(spaces, false, number, address, 1) {
        Err(failure) => {
            reply_datagram::failed_read(out, form, number, address, space_reach::code_of(failure))
        }
        Ok(space) => {
            let bytes = bytes_in(space, flash, memory, address, count);
            reply_datagram::read(out, form, number, address, bytes)
        }
    }
}

// Writes bytes of the space with that number, all of them or none. A masked write, below, has another count and another
// store, and shares the rest: `reach`, `index_of`, `failed_write`. One function for both, over a closure that stores,
// would take eight arguments of either, with a `requires` that the closure may be called.
pub fn write(
    spaces: &[u8],
    memory: &mut [u8],
    form: Form,
    number: u8,
    address: u32,
    bytes: &[u8],
    out: &mut [u8],
) -> Answer
    ensures writes { WriteEnds (store_bytes bytes.now) form number address (length bytes.now)
        (access true (find_space (spaces_in spaces.now) number) address (length bytes.now)) result out.old
        out.new memory.old memory.new }
    ensures fit { WritesFit }
{
    let n = bytes.len();
    match space_reach::reach(spaces, true, number, address, n) {
        Err(failure) => {
            reply_datagram::failed_write(out, form, number, address, space_reach::code_of(failure))
        }
        Ok(space) => {
            let index = index_of(space, address);
            buffer::put(memory, index, bytes);
            Answer::Written(index, n)
        }
    }
}

// Writes pairs of a mask and a value to the space with that number, all of them or none.
pub fn write_masked(
    spaces: &[u8],
    memory: &mut [u8],
    form: Form,
    number: u8,
    address: u32,
    pairs: &[u8],
    out: &mut [u8],
) -> Answer
    ensures { WriteEnds (store_masked (pairs_of pairs.now)) form number address (length (pairs_of pairs.now))
        (access true (find_space (spaces_in spaces.now) number) address (length (pairs_of pairs.now))) result
        out.old out.new memory.old memory.new }
{
    let n = pairs.len() / 2;
    match space_reach::reach(spaces, true, number, address, n) {
        Err(failure) => {
            reply_datagram::failed_write(out, form, number, address, space_reach::code_of(failure))
        }
        Ok(space) => {
            let index = index_of(space, address);
            exec_store::put_masked(memory, index, pairs);
            Answer::Written(index, n)
        }
    }
}
