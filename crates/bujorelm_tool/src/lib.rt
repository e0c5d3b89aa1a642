// The edge of the tool's half to C: a command written for each request, the readers of what a board answers, the frames
// of its replies joined, and masks and data that are put together or made of two images. Everything is lent: a slice is
// a pointer and then a length, an array of a fixed length is a pointer.
#![tactic(auto)]

ghost use Rattle.std.specs.Prelude.{◌≡◌, true, ◌%◌, eqb, length, IfOk};
ghost use Rattle.can_frame.specs.Frame.{can_frame, source_of, role_of};
ghost use Rattle.cmd_fields.specs.Commands.{read, write, write_masked, options, information, reserve, update_complete, pairs_of};
ghost use Rattle.rx_place_spec.specs.Ticks.{drop_due};
ghost use Rattle.rx_spec.specs.Reception.{place_of, receive};
ghost use Rattle.rx_place_spec.specs.PlaceBytes.{places_in, state_before};
ghost use Rattle.rx_join_spec.specs.StateCheck.{state_check};
ghost use Rattle.rx_join_spec.specs.Joins.{JoinEnds, Lies};
ghost use Rattle.tool_read_spec.specs.Finding.{find_reply, Readings};
ghost use Rattle.tool_read_ack.specs.Receipt.{read_received, read_rejection};
ghost use Rattle.tool_write_spec.specs.Writing.{EveryRequest};
ghost use Rattle.tool_result_spec.specs.Layout.{acknowledged_bytes, rejection_bytes, reply_fields_bytes};
ghost use Rattle.tool_result_spec.specs.Numbers.{acknowledged_of, rejection_of, fields_of_reply, reply_refusal, reply_refusal_in, ToldApart};
ghost use Rattle.tool_meets_board_spec.specs.Meeting.{HalvesMeet};
ghost use Rattle.mask_combine.specs.Combining.{zero_outside, put_together, pair_in, mask_and_data};
ghost use Rattle.mask_effects_spec.specs.AnyOrder.{WritesAddUp};
ghost use Rattle.mask_diff_spec.specs.Differences.{next_change};
ghost use Rattle.mask_diff_spec.specs.Writes.{AllUpdates};
ghost use Rattle.mask_diff.specs.Changes.{Finds};
ghost use Rattle.mask_diff.specs.Numbers.{numbers_of, change_is};
ghost use Rattle.bujorelm_tool.specs.Composing.{Composes};
ghost use Rattle.bujorelm_tool.specs.Joining.{joined_bytes, joined_of, outcome_is};

use call_error::CallError;
use rx_join_spec::Outcome;
use tool_write_spec::WriteError;

// The version of this edge, major in the upper 16 bits and minor in the lower: a header of the same major and of no
// greater minor fits.
const VERSION: u32 = 0x00030000;

#[unsafe(no_mangle)]
pub extern "C" fn bujorelm_tool_version() -> u32
    ensures { result ≡ 0x00030000 }
{
    VERSION
}

// Writes the command for a read of `count` bytes. The count comes as a wide number: one over 255 is out of range, and
// not its low byte. What holds of the writer's one form is demanded here once, for every request.
#[unsafe(no_mangle)]
#[tactic(auto, unfolding(tool_write_spec::specs::Writing::writing, tool_write_spec::specs::Writing::in_range), using(tool_write_spec::proofs::OnlyLaws::every_request))]
pub extern "C" fn bujorelm_compose_read(
    space: u8,
    address: u32,
    count: usize,
    buffer: &mut [u8],
    composed: &mut [u8; 16],
)
    ensures composes { Composes true (read space address count) composed.new buffer.old buffer.new }
    ensures every_request { EveryRequest }
{
    let written = match u8::try_from(count) {
        Ok(count) => tool_write::write_read(space, address, count, buffer),
        Err(_) => Err(WriteError::OutOfRange),
    };
    tool_result::written_into(written, composed);
}

// Writes the command for a write of bytes.
#[unsafe(no_mangle)]
pub extern "C" fn bujorelm_compose_write(
    space: u8,
    address: u32,
    bytes: &[u8],
    buffer: &mut [u8],
    composed: &mut [u8; 16],
)
    ensures { Composes true (write space address bytes.now) composed.new buffer.old buffer.new }
{
    tool_result::written_into(
        tool_write::write_write(space, address, bytes, buffer),
        composed,
    );
}

// Writes the command for a masked write of pairs, each a mask and then its data.
#[unsafe(no_mangle)]
pub extern "C" fn bujorelm_compose_masked_write(
    space: u8,
    address: u32,
    pairs: &[u8],
    buffer: &mut [u8],
    composed: &mut [u8; 16],
)
    ensures { Composes (eqb (length pairs.now % 2) 0) (write_masked space address (pairs_of pairs.now))
        composed.new buffer.old buffer.new }
{
    tool_result::written_into(
        tool_write::write_masked(space, address, pairs, buffer),
        composed,
    );
}

// Writes the command that asks for the options.
#[unsafe(no_mangle)]
pub extern "C" fn bujorelm_compose_options(buffer: &mut [u8], composed: &mut [u8; 16])
    ensures { Composes true options composed.new buffer.old buffer.new }
{
    tool_result::written_into(tool_write::write_options(buffer), composed);
}

// Writes the command that asks for the information on a space.
#[unsafe(no_mangle)]
pub extern "C" fn bujorelm_compose_information(
    space: u8,
    buffer: &mut [u8],
    composed: &mut [u8; 16],
)
    ensures { Composes true (information space) composed.new buffer.old buffer.new }
{
    tool_result::written_into(tool_write::write_information(space, buffer), composed);
}

// Writes the command that locks or releases a board.
#[unsafe(no_mangle)]
pub extern "C" fn bujorelm_compose_lock(id: &[u8], buffer: &mut [u8], composed: &mut [u8; 16])
    ensures { Composes true (reserve id.now) composed.new buffer.old buffer.new }
{
    tool_result::written_into(tool_write::write_lock(id, buffer), composed);
}

// Writes the command Update Complete.
#[unsafe(no_mangle)]
pub extern "C" fn bujorelm_compose_update_complete(buffer: &mut [u8], composed: &mut [u8; 16])
    ensures { Composes true update_complete composed.new buffer.old buffer.new }
{
    tool_result::written_into(tool_write::write_update_complete(buffer), composed);
}

// Reads the content of a Received OK, which is what stands behind the aliases.
#[unsafe(no_mangle)]
pub extern "C" fn bujorelm_read_received_ok(content: &[u8], acknowledged: &mut [u8; 8])
    ensures { acknowledged.new ≡ acknowledged_bytes (acknowledged_of (read_received content.now)) }
{
    tool_result::received_into(tool_read_ack::read_received_ok(content), acknowledged);
}

// Reads the content of a Rejected.
#[unsafe(no_mangle)]
pub extern "C" fn bujorelm_read_rejected(content: &[u8], rejection: &mut [u8; 32])
    ensures { rejection.new ≡ rejection_bytes (rejection_of (read_rejection content.now)) }
{
    tool_result::rejection_into(tool_read_ack::read_rejected(content), rejection);
}

// Reads a reply datagram. What is found is what the language of replies says; W3 is kind 0 and no other; the bytes tell
// apart what is missing and what is 0; and whatever the board answers is read as the board put it in.
#[unsafe(no_mangle)]
pub extern "C" fn bujorelm_read_reply(datagram: &[u8], reply: &mut [u8; 56])
    ensures fields { reply.new ≡ reply_fields_bytes (fields_of_reply (find_reply datagram.now)) }
    ensures refusal { reply_refusal_in reply.new ≡ reply_refusal (find_reply datagram.now) }
    ensures readings { Readings }
    ensures apart { ToldApart }
    ensures meets { HalvesMeet }
{
    tool_result::reply_into(tool_read::read_reply(datagram), reply);
}

// What comes of joining a frame, in the 24 bytes that are lent for it.
fn put_joined(kind: u32, code: u16, start: usize, end: usize, joined: &mut [u8; 24])
    ensures { joined.new ≡ joined_bytes kind code start end }
{
    *joined = [0; 24];
    joined[0..4].copy_from_slice(&kind.to_le_bytes());
    joined[4..6].copy_from_slice(&code.to_le_bytes());
    joined[8..16].copy_from_slice(&start.to_le_bytes());
    joined[16..24].copy_from_slice(&end.to_le_bytes());
}

// The kinds: 0 an error of the caller, which is B7, 1 ignored, 2 joined or swallowed, 3 refused with `code`, 4 a
// datagram that is the frame's data, 5 a datagram that is the part of the pool from `start` up to `end`. A number that
// its kind does not name is 0.
fn put_outcome(outcome: Result<Outcome, CallError>, joined: &mut [u8; 24])
    ensures { joined.new ≡ joined_of outcome }
{
    match outcome {
        Err(_) => put_joined(0, 0, 0, 0, joined),
        Ok(Outcome::Ignored) => put_joined(1, 0, 0, 0, joined),
        Ok(Outcome::NoAnswer) => put_joined(2, 0, 0, 0, joined),
        Ok(Outcome::TransportRefusal(refusal)) => put_joined(3, refusal as u16, 0, 0, joined),
        Ok(Outcome::InFrame) => put_joined(4, 0, 0, 0, joined),
        Ok(Outcome::InPool(from, end)) => put_joined(5, 0, from, end, joined),
    }
}

// Joins a frame that a board sent to the tool with that alias. The one error of a caller that is asked for here is B7.
#[unsafe(no_mangle)]
pub extern "C" fn bujorelm_join(
    alias: u16,
    pool: &mut [u8; 576],
    places: &mut [u8; 64],
    header: u32,
    payload: &[u8],
    joined: &mut [u8; 24],
)
    ensures ends { JoinEnds (state_check (state_before places pool))
        (receive alias 0 (state_before places pool) (can_frame header payload.now)) payload.now
        (outcome_is joined.new) places.old places.new pool.old pool.new }
    ensures lies { IfOk (outcome_is joined.new) (Lies (role_of alias header (length payload.now))
        (place_of (source_of header) (drop_due 0 (places_in places.old)))) }
    ensures numbers { joined.new ≡ joined_of (outcome_is joined.new) }
{
    let outcome = rx_join::join(pool, places, alias, 0, header, payload, Ok(()));
    put_outcome(outcome, joined);
}

// Two pairs of a mask and a data byte put together, the later winning bit by bit. What a board does with a list of
// writes is what one such pair for each byte of its memory does, and those of two lists are put together so.
#[unsafe(no_mangle)]
pub extern "C" fn bujorelm_put_together(earlier: &[u8; 2], later: &[u8; 2], together: &mut [u8; 2])
    ensures together { together.new ≡ mask_and_data (put_together (zero_outside (pair_in earlier.now))
        (zero_outside (pair_in later.now))) }
    ensures adds_up { WritesAddUp }
{
    mask_combine::put_together(earlier, later, together);
}

// The next masked write, at or after an index, out of those that take an old image of memory to a new one.
#[unsafe(no_mangle)]
pub extern "C" fn bujorelm_next_change(
    old: &[u8],
    new: &[u8],
    from: usize,
    pairs: &mut [u8],
    change: &mut [u8; 24],
)
    ensures finds { Finds (next_change old.now new.now from (length pairs.old)) (change_is change.new)
        pairs.old pairs.new }
    ensures numbers { change.new ≡ numbers_of (change_is change.new) }
    ensures updates { AllUpdates }
{
    mask_diff::put_change(mask_diff::next_change(old, new, from, pairs), change);
}
