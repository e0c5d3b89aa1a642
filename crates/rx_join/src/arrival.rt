// What is done before a frame is looked at: what is due at its tick is dropped, by what the search found.
ghost use Rattle.std.specs.Prelude.{◌≡◌, cond, get_or};
ghost use Rattle.rx_place_spec.specs.Place.{free_place};
ghost use Rattle.rx_place_spec.specs.Ticks.{drop_due};
ghost use Rattle.rx_place_spec.specs.PlaceBytes.{places_in, renewed};

use rx_place::PLACES;
use rx_search::Looked;

// Place i where it is held.
fn where_held(places: &[u8; 64], i: usize) -> usize
    ensures { result ≡ cond (get_or (places_in places.now) i free_place).held i 8 }
{
    if rx_place::is_held(places, i) {
        i
    } else {
        PLACES
    }
}

// What is due dropped, where the search found that something is; and the place that it found for the source, or
// `PLACES` where that was freed.
pub fn arrive(places: &mut [u8; 64], looked: Looked, tick: u16) -> usize
    ensures found { result ≡ cond looked.due (cond (get_or (places_in places.new) looked.place free_place).held looked.place 8)
        looked.place }
    ensures places { places_in places.new ≡ cond looked.due (drop_due tick (places_in places.old)) (places_in places.old) }
    ensures renewal { places.new ≡ renewed (cond looked.due (drop_due tick (places_in places.old)) (places_in places.old))
        places.old }
{
    if looked.due {
        rx_timeout::drop_due(places, tick);
        where_held(places, looked.place)
    } else {
        looked.place
    }
}
