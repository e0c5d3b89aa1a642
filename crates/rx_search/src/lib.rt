// The eight places of the reception state looked through: for a source, with B7 and what is due, and for a free place.
#![tactic(auto)]

ghost use Rattle.std.specs.Prelude.{◌≡◌, true, false, cond, Err, ◌||◌, ◌⊎◌, ℕ, take, get_or};
ghost use Rattle.rx_place_spec.specs.Place.{free_place};
ghost use Rattle.rx_place_spec.specs.Ticks.{is_due};
ghost use Rattle.rx_spec.specs.Reception.{is_for, free_in, sound};
ghost use Rattle.rx_place_spec.specs.PlaceBytes.{places_in};
ghost use Rattle.rx_search.specs.Search.{there, unsound, looked_up};

use rx_place::PLACES;

// What a search finds: the place of a source, which is `PLACES` where it has none, and whether a place is due. No Option:
// its tag stayed beside the number to the end of the frame call, and ignored frames took some 6 in a hundred longer.
#[derive(Clone, Copy)]
pub struct Looked {
    pub place: usize,
    pub due: bool,
}

// That B7 refuses the places, or may do so where they need only pass the stricter test.
#[derive(Clone, Copy)]
pub struct Unsound;

// The first free place, if there is one.
pub fn find_free(places: &[u8; 64]) -> Option<usize>
    ensures { result ≡ there (free_in (places_in places.now)) }
{
    for i in 0..PLACES {
        if !rx_place::is_held(places, i) {
            return Some(i);
        }
    }
    None
}

// Whether all places pass: by B7, or where `PLAIN` by the stricter test.
fn all_pass<const PLAIN: bool>(places: &[u8; 64]) -> bool
    ensures sound { result ≡ true → sound (places_in places.now) ≡ true }
    ensures b7 { PLAIN ≡ false → result ≡ sound (places_in places.now) }
{
    for i in 0..PLACES {
        if !rx_place_check::passes_at::<PLAIN>(places, i) {
            return false;
        }
    }
    true
}

// Whether B7 lets the places pass, asked where they do not pass the stricter test. It is kept apart: beside it the quick
// way would have to keep what it read for this one.
#[cold]
#[inline(never)]
fn all_pass_b7(places: &[u8; 64]) -> bool
    ensures { result ≡ sound (places_in places.now) }
{
    all_pass::<false>(places)
}

// Whether B7 lets the places pass. The two tests are asked here by themselves: shared with the search, they would be
// kept apart from both, and slow.
pub fn are_sound(places: &[u8; 64]) -> bool
    ensures { result ≡ sound (places_in places.now) }
{
    all_pass::<true>(places) || all_pass_b7(places)
}

// Whether no place is held, asked of all eight at once: so it is for most frames.
fn is_idle(places: &[u8; 64]) -> bool
    ensures { result ≡ true → (i : ℕ) → (get_or (places_in places.now) i free_place).held ≡ false }
{
    let mut held: u8 = 0;
    for i in 0..PLACES {
        held |= places[8 * i];
    }
    held == 0
}

// The place of a source up to place i, where it was `found` before it.
fn next_found(places: &[u8; 64], i: usize, source: u16, found: usize) -> usize
    ensures { result ≡ cond (is_for source (get_or (places_in places.now) i free_place)) i found }
{
    if rx_place::is_for(places, i, source) {
        i
    } else {
        found
    }
}

// Whether a place is due up to place i, where one was `due` before it. Both are asked without a branch: that is
// quicker.
fn next_due(places: &[u8; 64], i: usize, tick: u16, due: bool) -> bool
    ensures { result ≡ (due || is_due tick (get_or (places_in places.now) i free_place)) }
{
    rx_timeout::is_due(places, i, tick) | due
}

// The place of a source, and whether a place is due at the tick. Where `PLAIN` the places need only pass the stricter
// test, so that an error may be none by B7.
fn look_through<const PLAIN: bool>(
    places: &[u8; 64],
    source: u16,
    tick: u16,
) -> Result<Looked, Unsound>
    ensures { ((result ≡ Err unsound) × (PLAIN ≡ true)) ⊎ (result ≡ looked_up source tick (places_in places.now)) }
{
    let mut found = PLACES;
    let mut due = false;
    for i in 0..PLACES {
        if !rx_place_check::passes_at::<PLAIN>(places, i) {
            return Err(Unsound);
        }
        found = next_found(places, i, source, found);
        due = next_due(places, i, tick, due);
    }
    Ok(Looked { place: found, due })
}

// The search by B7 itself, kept apart as the test above is.
#[cold]
#[inline(never)]
fn look_by_b7(places: &[u8; 64], source: u16, tick: u16) -> Result<Looked, Unsound>
    ensures { result ≡ looked_up source tick (places_in places.now) }
{
    look_through::<false>(places, source, tick)
}

// The place of a source, and whether a place is due at the tick; an error where B7 refuses the places. All that the
// library has made passes the stricter test, and takes no longer than before there was a place whose length means
// nothing.
pub fn look_up(places: &[u8; 64], source: u16, tick: u16) -> Result<Looked, Unsound>
    ensures { result ≡ looked_up source tick (places_in places.now) }
{
    if is_idle(places) {
        return Ok(Looked {
            place: PLACES,
            due: false,
        });
    }
    match look_through::<true>(places, source, tick) {
        Ok(quick) => Ok(quick),
        Err(_) => look_by_b7(places, source, tick),
    }
}
