// A frame joined to the unfinished datagram of its source, which is opened, appended to, closed or dropped; or
// swallowed.
ghost use Rattle.std.specs.Prelude.{◌≡◌, true, false, cond, ◌&&◌, List, ℕ, ◌*◌, ◌<◌, ltb, eqb, get_or};
ghost use Rattle.buffer.specs.Buffer.{placed};
ghost use Rattle.rx_step.specs.declared.Step.TheVariants as does;
ghost use Rattle.rx_place_spec.specs.Place.{free_place};
ghost use Rattle.rx_spec.specs.Reception.{free_in, place_of, sound, join_sound};
ghost use Rattle.rx_place_spec.specs.PlaceBytes.{places_in, place_bytes, state_in, state_before};
ghost use Rattle.rx_search.specs.Search.{there};
ghost use Rattle.rx_join_spec.specs.Joins.{Joins, Lies};
ghost use Rattle.rx_join_spec.specs.Inner.{Lent, Appendable, Own, Allowed, step_done, LiesAfter};

use can_frame::{Role, TransportRefusal};
use rx_join_spec::Outcome;
use rx_place::PLACES;
use rx_step::Step;

// A frame's source, data, tick and place are arguments of their own, and so are pool and places. Structs of them would
// be no plainer: the clauses below name each one alone (`step_done .. source i payload.now tick`), only four of the
// functions take all four, and four touch the places alone, whatever the pool. For the same reason `Lent`, a fact about
// pool and data together, stays in the clauses of the five that take both.

// The bytes of the pool for each place.
const PLACE_ROOM: u32 = 72;

// Where the bytes of place i begin in the pool. The product has 32 bits: for one of 64, a processor that has none calls
// a routine.
fn room_at(i: usize) -> usize
    requires { i < 8 }
    ensures { result ≡ 72 * i }
{
    (PLACE_ROOM * i as u32) as usize
}

// Place i freed, if it is there, and what comes of the frame.
fn leave(places: &mut [u8], i: usize, outcome: Outcome) -> Outcome
    ensures { (places.new ≡ placed (8 * i) (place_bytes free_place) places.old) × (result ≡ outcome) }
{
    rx_place::free(places, i);
    outcome
}

// The frame refused, and place i kept for its source, which is being swallowed from now on. The tick stays: a refused
// frame is not accepted.
fn refuse_and_swallow(
    places: &mut [u8; 64],
    i: usize,
    source: u16,
    refusal: TransportRefusal,
) -> Outcome
    requires { Own i source false places.old }
    ensures { (pool d : List ℕ) (at : ℕ) → Joins (step_done (does.RefuseAndSwallow refusal) true source i d at
        (state_in places.old pool)) d result places.old places.new pool }
{
    let tick = rx_place::tick_at(places, i);
    rx_place::swallow(places, i, source, tick);
    Outcome::TransportRefusal(refusal)
}

// Whether a place of a source that is being swallowed, with that length and tick, is as a frame at the tick `at` leaves
// it.
fn stands(len: u8, tick: u16, at: u16) -> bool
    ensures { result ≡ (eqb len 0 && eqb tick at) }
{
    len == 0 && tick == at
}

// A Middle of a source that is being swallowed: it is the last accepted frame from now on. A place that has its tick
// already keeps its bytes.
fn swallow(places: &mut [u8; 64], i: usize, source: u16, len: u8, tick: u16) -> Outcome
    requires { Own i source true places.old × (len ≡ (get_or (places_in places.old) i free_place).len) }
    ensures { (pool d : List ℕ) → Joins (step_done does.Swallow true source i d tick (state_in places.old pool)) d result
        places.old places.new pool }
{
    if stands(len, rx_place::tick_at(places, i), tick) {
        return Outcome::NoAnswer;
    }
    rx_place::swallow(places, i, source, tick);
    Outcome::NoAnswer
}

// Where a datagram is opened: in place i, where it is there, and otherwise in the first free one, if there is one.
fn room_for(places: &[u8; 64], i: usize) -> Option<usize>
    ensures { result ≡ there (cond (ltb i 8) i (free_in (places_in places.now))) }
{
    if i < PLACES {
        Some(i)
    } else {
        rx_search::find_free(places)
    }
}

// A First: opens a datagram in the place of its source, which is being swallowed, or in the first free place, where it
// has none.
fn open(
    pool: &mut [u8],
    places: &mut [u8; 64],
    i: usize,
    source: u16,
    payload: &[u8],
    tick: u16,
) -> Outcome
    requires { Lent pool.old payload.now × (i < 8 → Own i source true places.old) }
    ensures { Joins (step_done does.Open (ltb i 8) source i payload.now tick (state_before places pool))
        payload.now result places.old places.new pool.new }
{
    let Some(k) = room_for(places, i) else {
        return Outcome::TransportRefusal(TransportRefusal::BufferUnavailable);
    };
    buffer::put(pool, room_at(k), payload);
    rx_place::hold(places, k, source, payload.len() as u8, tick);
    Outcome::NoAnswer
}

// A Middle: appends to the `len` bytes in place i.
fn append(
    pool: &mut [u8],
    places: &mut [u8; 64],
    i: usize,
    source: u16,
    len: u8,
    payload: &[u8],
    tick: u16,
) -> Outcome
    requires { Lent pool.old payload.now × Appendable i len false places.old payload.now }
    ensures { Joins (step_done does.Append true source i payload.now tick (state_before places pool)) payload.now result
        places.old places.new pool.new }
{
    buffer::put(pool, room_at(i) + len as usize, payload);
    rx_place::hold(places, i, source, len + payload.len() as u8, tick);
    Outcome::NoAnswer
}

// A Last: appends to the `len` bytes in place i, and closes the datagram; its bytes stay in the pool until the place is
// used again.
fn close(pool: &mut [u8], places: &mut [u8; 64], i: usize, len: u8, payload: &[u8]) -> Outcome
    requires { Lent pool.old payload.now × Appendable i len true places.old payload.now }
    ensures joins { Joins (step_done does.Close true 0 i payload.now 0 (state_before places pool)) payload.now result
        places.old places.new pool.new }
    ensures lies { LiesAfter does.Close i result }
{
    let from = room_at(i);
    let end = from + len as usize;
    buffer::put(pool, end, payload);
    rx_place::free(places, i);
    Outcome::InPool(from, end + payload.len())
}

// A step taken for a frame of the source, whose place is i, with the length `len`, or `PLACES`.
fn take_step(
    pool: &mut [u8],
    places: &mut [u8; 64],
    step: Step,
    source: u16,
    payload: &[u8],
    tick: u16,
    i: usize,
    len: u8,
) -> Outcome
    requires { Lent pool.old payload.now × (i < 8 → (get_or (places_in places.old) i free_place).held ≡ true)
        × Allowed step i source len places.old payload.now }
    ensures joins { Joins (step_done step (ltb i 8) source i payload.now tick (state_before places pool)) payload.now result
        places.old places.new pool.new }
    ensures lies { LiesAfter step i result }
{
    match step {
        Step::Ignore => Outcome::Ignored,
        Step::Deliver => leave(places, i, Outcome::InFrame),
        Step::Open => open(pool, places, i, source, payload, tick),
        Step::Append => append(pool, places, i, source, len, payload, tick),
        Step::Close => close(pool, places, i, len, payload),
        Step::Refuse(refusal) => leave(places, i, Outcome::TransportRefusal(refusal)),
        Step::RefuseAndSwallow(refusal) => refuse_and_swallow(places, i, source, refusal),
        Step::Swallow => swallow(places, i, source, len, tick),
        Step::SwallowLast => leave(places, i, Outcome::NoAnswer),
    }
}

// A frame of at most 8 bytes joined to a state that B7 lets pass. Where its source is not unfinished, i is
// `PLACES`: such a place reads as free, and changing it changes nothing.
pub fn join_sound(
    pool: &mut [u8],
    places: &mut [u8; 64],
    role: Role,
    source: u16,
    payload: &[u8],
    tick: u16,
    i: usize,
) -> Outcome
    requires { Lent pool.old payload.now × (sound (places_in places.old) ≡ true)
        × (i ≡ place_of source (places_in places.old)) }
    ensures joins { Joins (join_sound role source payload.now tick (state_before places pool)) payload.now result
        places.old places.new pool.new }
    ensures lies { Lies role i result }
{
    let len = rx_place::len_at(places, i);
    let swallowing = rx_place::is_swallowing(places, i);
    let step = rx_step::step_of(role, payload.len() as u8, i < PLACES, swallowing, len);
    take_step(pool, places, step, source, payload, tick, i, len)
}
