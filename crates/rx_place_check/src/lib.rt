// B7 of one place of the reception state, beside the places before it.
#![tactic(auto)]

ghost use Rattle.std.specs.Prelude.{◌≡◌, not, ◌&&◌, ◌||◌, ◌≤◌, leb, take, get_or};
ghost use Rattle.rx_place_spec.specs.Place.{free_place};
ghost use Rattle.rx_spec.specs.Reception.{has_place};
ghost use Rattle.rx_place_spec.specs.PlaceBytes.{places_in};
ghost use Rattle.rx_place_check.specs.Plain.{passing};

// The most bytes that a datagram may have.
const LONGEST_DATAGRAM: u8 = 72;

// The greatest number that a source may have.
const LARGEST_SOURCE: u16 = 4095;

// Whether one of the first n places is held for the source.
fn is_among(places: &[u8; 64], n: usize, source: u16) -> bool
    requires { n ≤ 8 }
    ensures { result ≡ has_place source (take n (places_in places.now)) }
{
    for i in 0..n {
        if rx_place::is_for(places, i, source) {
            return true;
        }
    }
    false
}

// Whether place i may have its length, where it is held. A place whose source is being swallowed holds no datagram, so
// B7 lets its length be any; the stricter test does not ask whether it is.
fn may_have_length<const PLAIN: bool>(places: &[u8; 64], i: usize) -> bool
    ensures { result ≡ (not PLAIN && (get_or (places_in places.now) i free_place).swallowing || leb
        (get_or (places_in places.now) i free_place).len 72) }
{
    if !PLAIN && rx_place::is_swallowing(places, i) {
        return true;
    }
    rx_place::len_at(places, i) <= LONGEST_DATAGRAM
}

// Whether place i passes: by B7, or where `PLAIN` by a stricter test that is quicker. It asks besides that the length is
// that of a datagram whether or not the place holds one: so it is with all places that the library has made. One source
// twice is found at the second of its places.
pub fn passes_at<const PLAIN: bool>(places: &[u8; 64], i: usize) -> bool
    ensures { result ≡ passing PLAIN (take i (places_in places.now)) (get_or (places_in places.now) i free_place) }
{
    if !rx_place::is_held(places, i) {
        return true;
    }
    let source = rx_place::source_at(places, i);
    if !may_have_length::<PLAIN>(places, i) {
        return false;
    }
    if LARGEST_SOURCE < source {
        return false;
    }
    !is_among(places, i, source)
}
