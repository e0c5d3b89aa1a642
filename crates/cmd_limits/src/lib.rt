// The limits of a request's count and lengths, by numbers alone.
#![tactic(auto)]

ghost use Rattle.std.specs.Prelude.{◌≡◌};
ghost use Rattle.cmd_limits.specs.Limits.{count_in, count_fits, bytes_fit, pairs_fit};

// The count in a read's count byte, whose top bit is ignored.
pub fn count_in(byte: u8) -> u8
    ensures { result ≡ count_in byte }
{
    byte % 128
}

// Whether a read may ask for so many bytes: 1 to 64.
pub fn count_fits(count: u8) -> bool
    ensures { result ≡ count_fits count }
{
    (1..=64).contains(&count)
}

// Whether a write may have so many bytes: 1 to 64. (One function with a type parameter for this and `count_fits` would
// be longer than the two.)
pub fn bytes_fit(n: usize) -> bool
    ensures { result ≡ bytes_fit n }
{
    (1..=64).contains(&n)
}

// Whether so many bytes are the pairs of a masked write: 1 to 32 pairs, of two bytes each.
pub fn pairs_fit(n: usize) -> bool
    ensures { result ≡ pairs_fit n }
{
    bytes_fit(n) && n % 2 == 0
}
