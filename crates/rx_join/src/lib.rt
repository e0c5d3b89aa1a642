// Frames joined into datagrams, or swallowed behind one that was refused.
#![tactic(auto)]

ghost use Rattle.std.specs.Prelude.{length, IfOk};
ghost use Rattle.call_error.specs.CallErrors.{or_else};
ghost use Rattle.can_frame.specs.Frame.{can_frame, source_of, role_of};
ghost use Rattle.rx_place_spec.specs.Ticks.{drop_due};
ghost use Rattle.rx_spec.specs.Reception.{place_of, receive};
ghost use Rattle.rx_place_spec.specs.PlaceBytes.{places_in, state_before};
ghost use Rattle.rx_join_spec.specs.StateCheck.{state_check};
ghost use Rattle.rx_source_spec.specs.Aging.{JoinAging};
ghost use Rattle.rx_source_spec.specs.OneSource.{JoinOneSource, OneRejection};
ghost use Rattle.rx_join_spec.specs.Joins.{JoinEnds, Lies};

use call_error::{CallError, Checked};
use rx_join_spec::Outcome;

mod arrival;
mod unfinished;

// A frame received at a tick by the board with that alias: what comes of it, and the places and the pool afterwards.
// The caller's errors come first: B7, and then `later`, the first of those that come after B7, which the caller of
// this function has asked. Then what is due is dropped. Data over 8 bytes are ignored here already, so that what joins
// a frame can count on at most 8.
pub fn join(
    pool: &mut [u8; 576],
    places: &mut [u8; 64],
    alias: u16,
    tick: u16,
    header: u32,
    payload: &[u8],
    later: Checked,
) -> Result<Outcome, CallError>
    ensures ends { JoinEnds (or_else (state_check (state_before places pool)) later)
        (receive alias tick (state_before places pool) (can_frame header payload.now)) payload.now result
        places.old places.new pool.old pool.new }
    ensures lies { IfOk result (Lies (role_of alias header (length payload.now))
        (place_of (source_of header) (drop_due tick (places_in places.old)))) }
    ensures aging { JoinAging }
    ensures source { JoinOneSource }
    ensures rejection { OneRejection }
{
    let source = can_frame::source_of(header);
    let Ok(looked) = rx_search::look_up(places, source, tick) else {
        return Err(CallError::B7BadReceptionState);
    };
    later?;
    let i = arrival::arrive(places, looked, tick);
    if 8 < payload.len() {
        return Ok(Outcome::Ignored);
    }
    let role = can_frame::role_of(alias, header, payload.len());
    Ok(unfinished::join_sound(pool, places, role, source, payload, tick, i))
}
