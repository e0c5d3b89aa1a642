// One of the eight places of the reception state in their 64 lent bytes: what it holds, and the place changed: held for
// a source, kept for one that is being swallowed, or freed. A place that is not there reads as free, and changing it
// changes nothing.
#![tactic(auto)]

ghost use Rattle.std.specs.Prelude.{◌≡◌, cond, ◌+◌, ◌*◌, ◌<◌, ltb, get_or};
ghost use Rattle.rx_place_spec.specs.Place.{free_place, held_for, swallowing_for};
ghost use Rattle.rx_spec.specs.Reception.{is_for};
ghost use Rattle.rx_place_spec.specs.PlaceBytes.{places_in, place_bytes};
ghost use Rattle.buffer.specs.Buffer.{placed};

use rx_place_spec::Place;

// How many places there are. An index from here on names none.
pub const PLACES: usize = 8;

// Byte k of place i: 0 where the place is not there.
fn byte_of(places: &[u8; 64], i: usize, k: usize) -> u8
    requires { k < 8 }
    ensures { result ≡ cond (ltb i 8) (get_or places.now (8 * i + k) 0) 0 }
{
    if PLACES <= i {
        return 0;
    }
    places[8 * i + k]
}

// Whether place i is held: it holds an unfinished datagram, or its source is being swallowed. Any byte that is not 0 is
// true.
pub fn is_held(places: &[u8; 64], i: usize) -> bool
    ensures { result ≡ (get_or (places_in places.now) i free_place).held }
{
    byte_of(places, i, 0) != 0
}

// How many bytes of the datagram are joined.
pub fn len_at(places: &[u8; 64], i: usize) -> u8
    ensures { result ≡ (get_or (places_in places.now) i free_place).len }
{
    byte_of(places, i, 1)
}

// From whom it comes.
pub fn source_at(places: &[u8; 64], i: usize) -> u16
    ensures { result ≡ (get_or (places_in places.now) i free_place).source }
{
    u16::from_le_bytes([byte_of(places, i, 2), byte_of(places, i, 3)])
}

// The driver's tick at the last accepted frame of its source.
pub fn tick_at(places: &[u8; 64], i: usize) -> u16
    ensures { result ≡ (get_or (places_in places.now) i free_place).tick }
{
    u16::from_le_bytes([byte_of(places, i, 4), byte_of(places, i, 5)])
}

// Whether the source of place i is being swallowed, where the place is held.
pub fn is_swallowing(places: &[u8; 64], i: usize) -> bool
    ensures { result ≡ (get_or (places_in places.now) i free_place).swallowing }
{
    byte_of(places, i, 6) != 0
}

// Whether place i is held for the source.
pub fn is_for(places: &[u8; 64], i: usize, source: u16) -> bool
    ensures { result ≡ is_for source (get_or (places_in places.now) i free_place) }
{
    is_held(places, i) && source_at(places, i) == source
}

// What the byte of a place that has no meaning yet becomes where the place is changed.
const SPARE: u8 = 0;

// The bytes of a place.
fn bytes_of(place: Place) -> [u8; 8]
    ensures { result ≡ place_bytes place }
{
    let [source_low, source_high] = place.source.to_le_bytes();
    let [tick_low, tick_high] = place.tick.to_le_bytes();
    [
        place.held as u8,
        place.len,
        source_low,
        source_high,
        tick_low,
        tick_high,
        place.swallowing as u8,
        SPARE,
    ]
}

// The bytes of place i, as far as it is there. The test keeps `8 * i` small; `put` copies nothing that does not fit.
fn put_place(places: &mut [u8], i: usize, place: Place)
    ensures { places.new ≡ placed (8 * i) (place_bytes place) places.old }
{
    if i < places.len() / 8 {
        buffer::put(places, 8 * i, &bytes_of(place));
    }
}

// A place that is held for nobody: what is not said of another place is as in this one.
const FREE: Place = Place {
    held: false,
    len: 0,
    source: 0,
    tick: 0,
    swallowing: false,
};

// Place i holds `len` bytes of the source, whose last accepted frame came at the tick. A datagram opened with zero
// bytes is held too.
pub fn hold(places: &mut [u8], i: usize, source: u16, len: u8, tick: u16)
    ensures { places.new ≡ placed (8 * i) (place_bytes (held_for source len tick)) places.old }
{
    let unfinished = Place {
        held: true,
        len,
        source,
        tick,
        ..FREE
    };
    put_place(places, i, unfinished);
}

// Place i is kept for the source, which is being swallowed, and whose last accepted frame came at the tick.
pub fn swallow(places: &mut [u8], i: usize, source: u16, tick: u16)
    ensures { places.new ≡ placed (8 * i) (place_bytes (swallowing_for source tick)) places.old }
{
    let swallowed = Place {
        held: true,
        source,
        tick,
        swallowing: true,
        ..FREE
    };
    put_place(places, i, swallowed);
}

// Place i becomes free.
pub fn free(places: &mut [u8], i: usize)
    ensures { places.new ≡ placed (8 * i) (place_bytes free_place) places.old }
{
    put_place(places, i, FREE);
}
