// The places that are due to be freed: those whose source's last accepted frame is more than 3,000 ticks back, whether
// they hold its unfinished datagram or it is being swallowed.
#![tactic(auto)]

ghost use Rattle.std.specs.Prelude.{◌≡◌, slice_index_or};
ghost use Rattle.rx_place_spec.specs.Place.{free_place};
ghost use Rattle.rx_place_spec.specs.Ticks.{age, is_due, drop_due};
ghost use Rattle.rx_place_spec.specs.PlaceBytes.{places_in, renewed};

const PLACES: usize = 8;

// The most ticks that the last accepted frame may be back.
const LONGEST_AGE: u16 = 3000;

// How many ticks `now` is after `then`: the count goes from 65,535 to 0.
fn age_of(now: u16, then: u16) -> u16
    ensures { result ≡ age now then }
{
    now.wrapping_sub(then)
}

// Whether place i is held, and is due at the tick.
pub fn is_due(places: &[u8; 64], i: usize, tick: u16) -> bool
    ensures { result ≡ is_due tick (slice_index_or (places_in places.now) i free_place) }
{
    rx_place::is_held(places, i) && LONGEST_AGE < age_of(tick, rx_place::tick_at(places, i))
}

// Every place freed that is due. A place that is not changed keeps all its bytes.
pub fn drop_due(places: &mut [u8; 64], tick: u16)
    ensures places { places_in places.new ≡ drop_due tick (places_in places.old) }
    ensures renewal { places.new ≡ renewed (drop_due tick (places_in places.old)) places.old }
{
    for i in 0..PLACES {
        if is_due(places, i, tick) {
            rx_place::free(places, i);
        }
    }
}
