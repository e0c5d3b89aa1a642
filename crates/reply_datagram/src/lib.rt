// The reply datagrams, written into the lent buffer: the whole reply, or nothing where the buffer has no room for it.
#![tactic(auto)]

ghost use Rattle.std.specs.Prelude.{◌≡◌, ◌≤◌, length};
ghost use Rattle.reply_datagram.specs.Replies.{read_reply, failed_read, failed_write, lock_reply, Sends};
ghost use Rattle.space_table.specs.Table.{spaces_in};
ghost use Rattle.reply_datagram.specs.Inquiry.{options_reply, access_flag, absent_reply, information_reply};

use cmd_fields::Form;
use reply_answer::Answer;
use space_lookup::Found;
use space_table::Space;

// The reply to a read: the bytes read.
pub fn read(reply: &mut [u8], form: Form, space: u8, address: u32, bytes: &[u8]) -> Answer
    ensures { Sends (read_reply form space address bytes.now) result reply.old reply.new }
{
    reply_head::send(reply, 0x50, form, space, address, bytes)
}

// The reply to a read that failed. (This and `failed_write` are each one call: the clauses of both say which of the two
// failures of the definitions is sent.)
pub fn failed_read(reply: &mut [u8], form: Form, space: u8, address: u32, code: u16) -> Answer
    ensures { Sends (failed_read form space address code) result reply.old reply.new }
{
    reply_head::send(reply, 0x58, form, space, address, &code.to_be_bytes())
}

// The reply to a write or a masked write that failed.
pub fn failed_write(reply: &mut [u8], form: Form, space: u8, address: u32, code: u16) -> Answer
    ensures { Sends (failed_write form space address code) result reply.old reply.new }
{
    reply_head::send(reply, 0x18, form, space, address, &code.to_be_bytes())
}

// 0x88: the lock memory, which has six bytes.
pub fn lock(reply: &mut [u8], held: [u8; 6]) -> Answer
    ensures reply { Sends (lock_reply held) result reply.old reply.new }
    ensures six { length held ≡ 6 }
{
    let bytes = [
        0x20u8, 0x8A, held[0], held[1], held[2], held[3], held[4], held[5],
    ];
    reply_answer::whole(reply, &bytes)
}

// 0x80: what the board can do.
pub fn options(out: &mut [u8], write_lengths: u8, spaces: &[u8]) -> Answer
    ensures { Sends (options_reply write_lengths (spaces_in spaces.now)) result out.old out.new }
{
    let lowest = space_lookup::lowest_number(spaces);
    let bytes = [0x20u8, 0x82, 0xE0, 0x00, write_lengths, 0xFF, lowest];
    reply_answer::whole(out, &bytes)
}

fn access_flag(space: Space) -> u8
    ensures { (result ≡ access_flag space) × (result ≤ 1) }
{
    u8::from(space.read_only)
}

fn absent(out: &mut [u8], number: u8) -> Answer
    ensures { Sends (absent_reply number) result out.old out.new }
{
    let bytes = [0x20u8, 0x86, number, 0, 0, 0, 0, 0];
    reply_answer::whole(out, &bytes)
}

fn present(out: &mut [u8], number: u8, space: Space) -> Answer
    ensures { Sends (information_reply number (Found.Described space)) result out.old out.new }
{
    let flag = access_flag(space);
    let h = buffer::bytes(space.highest);
    if space.lowest == 0 {
        let bytes = [0x20u8, 0x87, number, h[0], h[1], h[2], h[3], flag];
        return reply_answer::whole(out, &bytes);
    }
    let l = buffer::bytes(space.lowest);
    let bytes = [
        0x20u8,
        0x87,
        number,
        h[0],
        h[1],
        h[2],
        h[3],
        flag + 2,
        l[0],
        l[1],
        l[2],
        l[3],
    ];
    reply_answer::whole(out, &bytes)
}

// 0x84: what is known of a space.
pub fn information(out: &mut [u8], number: u8, found: Found) -> Answer
    ensures { Sends (information_reply number found) result out.old out.new }
{
    match found {
        Found::Described(space) => present(out, number, space),
        Found::Empty(_) | Found::Unknown => absent(out, number),
    }
}
