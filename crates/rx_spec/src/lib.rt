// The reception state: eight places, of eight lent bytes each; the bytes of the unfinished datagrams lie in a lent
// pool, 72 for each place. Its rules, the books and the order statement are in specs/, and hold of the definitions
// alone.
#![tactic(auto)]

ghost use Rattle.std.specs.Prelude.{◌≡◌, List, length, ℕ};
ghost use Rattle.rx_spec.specs.Books.{blank};
ghost use Rattle.rx_place_spec.specs.State.{empty_places};
ghost use Rattle.rx_spec.specs.Reception.{unfinished_for};
ghost use Rattle.rx_place_spec.specs.PlaceBytes.{places_in, state_in, start_bytes};
ghost use Rattle.rx_spec.specs.Order.{Fresh, JoinOrder};

// The places at the start: nobody has an unfinished datagram, whatever the pool holds, so that the order statement
// starts from there. From there frames are joined in their order.
pub fn new_places() -> [u8; 64]
    ensures bytes { result ≡ start_bytes }
    ensures places { places_in result ≡ empty_places }
    ensures empty { (pool : List ℕ) (s : ℕ) → unfinished_for (state_in result pool) s ≡ blank }
    ensures fresh { (pool : List ℕ) → length pool ≡ 576 → Fresh (state_in result pool) }
    ensures order { JoinOrder }
{
    [0u8; 64]
}
