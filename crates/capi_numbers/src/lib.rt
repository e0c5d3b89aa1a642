// The numbers of a call's result, and the bytes that hold them.
#![tactic(auto)]

ghost use Rattle.std.specs.Prelude.{◌≡◌, min};
ghost use Rattle.capi_numbers.specs.Numbers.{kind_written, kind_replied, refusal_numbers, numbers, in_bytes, result_bytes};

// What stands in the place of a position where there is none. No position is so great, and a position of 0 is the first
// space's. It is no `Option`, because it is C's: bujorelm.h has it as BUJORELM_NO_POSITION.
pub const NO_POSITION: u8 = 255;

// The kinds of what comes of a call, with their numbers: refused because of the error `error` of the caller, with the
// `position` of the refused space; ignored; joined or swallowed, and not answered; refused by the transport with
// `code`; rejected with `code`; a write that is done, Received OK with `flags` 0x00, and memory changed in
// `changed_len` bytes from `changed_at` on; Received OK with `flags` 0x80 and a reply of `reply_len` bytes; Update
// Complete, Received OK with `flags` 0x00.
#[derive(Clone, Copy)]
pub enum Kind {
    Refused = 0,
    Ignored = 1,
    Joined = 2,
    TransportRefusal = 3,
    Rejected = 4,
    Written = 5,
    Replied = 6,
    UpdateComplete = 7,
}

// The numbers of what comes of a call. `frame_count` frames are to be sent. A number that its kind does not name is 0,
// but for the position, which is `NO_POSITION`.
#[derive(Drop)]
pub struct CallResult {
    pub kind: u32,
    pub code: u16,
    pub error: u8,
    pub flags: u8,
    pub changed_at: u32,
    pub changed_len: u32,
    pub reply_len: u8,
    pub frame_count: u8,
    pub position: u8,
}

// The bytes of a result, which the caller lends.
pub type ResultBytes = [u8; 20];

// A number in one byte, and in four: the greatest that has room for one that has none.
fn byte(n: usize) -> u8
    ensures { result ≡ min n 255 }
{
    n.min(255) as u8
}

fn four_bytes(n: usize) -> u32
    ensures { result ≡ min n 0xFFFFFFFF }
{
    n.min(0xFFFFFFFF) as u32
}

// The numbers of a kind that names no other number.
fn blank(kind: u32, frame_count: usize) -> CallResult
    ensures { result ≡ in_bytes (numbers kind 0 0 0 0 0 frame_count) }
{
    CallResult {
        kind,
        code: 0,
        error: 0,
        flags: 0,
        changed_at: 0,
        changed_len: 0,
        reply_len: 0,
        frame_count: byte(frame_count),
        position: NO_POSITION,
    }
}

// Fills in the numbers.
fn fill(res: &mut ResultBytes, r: CallResult)
    ensures { res.new ≡ result_bytes r }
{
    let [k0, k1, k2, k3] = r.kind.to_le_bytes();
    let [c0, c1] = r.code.to_le_bytes();
    let [a0, a1, a2, a3] = r.changed_at.to_le_bytes();
    let [n0, n1, n2, n3] = r.changed_len.to_le_bytes();
    *res = [
        k0,
        k1,
        k2,
        k3,
        c0,
        c1,
        r.error,
        r.flags,
        a0,
        a1,
        a2,
        a3,
        n0,
        n1,
        n2,
        n3,
        r.reply_len,
        r.frame_count,
        r.position,
        0,
    ];
}

// A refusal because of an error of the caller.
pub fn of_refusal(error: u8, position: u8, frame_count: usize, res: &mut ResultBytes)
    ensures { res.new ≡ result_bytes (in_bytes (refusal_numbers error position frame_count)) }
{
    fill(
        res,
        CallResult {
            error,
            position,
            ..blank(Kind::Refused as u32, frame_count)
        },
    )
}

// Any other kind, with its flags and its code. It is given by its number, as it stands for C: to take a `Kind` would ask
// more of callers.
pub fn of_kind(kind: u32, flags: u8, code: u16, frame_count: usize, res: &mut ResultBytes)
    ensures { res.new ≡ result_bytes (in_bytes (numbers kind flags code 0 0 0 frame_count)) }
{
    fill(
        res,
        CallResult {
            code,
            flags,
            ..blank(kind, frame_count)
        },
    )
}

// A write that is done.
pub fn of_write(index: usize, n: usize, frame_count: usize, res: &mut ResultBytes)
    ensures { res.new ≡ result_bytes (in_bytes (numbers kind_written 0 0 index n 0 frame_count)) }
{
    fill(
        res,
        CallResult {
            changed_at: four_bytes(index),
            changed_len: four_bytes(n),
            ..blank(Kind::Written as u32, frame_count)
        },
    )
}

// A reply.
pub fn of_reply(n: usize, frame_count: usize, res: &mut ResultBytes)
    ensures { res.new ≡ result_bytes (in_bytes (numbers kind_replied 0x80 0 0 0 n frame_count)) }
{
    fill(
        res,
        CallResult {
            flags: 0x80,
            reply_len: byte(n),
            ..blank(Kind::Replied as u32, frame_count)
        },
    )
}
