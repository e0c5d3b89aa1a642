// Which datagrams are cut, by numbers alone. The frames that a datagram is cut into, and that joining them gives it
// back, are in specs/ and hold of the definitions alone.
#![tactic(auto)]

ghost use Rattle.std.specs.Prelude.{◌≡◌, ◌&&◌, leb};
ghost use Rattle.tx_cut_spec.specs.Cutting.{aliases};

// Whether two numbers fit the 12 bits of an alias in a header.
pub fn are_aliases(a: u16, b: u16) -> bool
    ensures { result ≡ aliases a b }
{
    a <= 4095 && b <= 4095
}

// Whether B9 lets a datagram of so many bytes be cut.
pub fn is_cut(size: usize, destination: u16, source: u16) -> bool
    ensures { result ≡ (leb size 72 && aliases destination source) }
{
    size <= 72 && are_aliases(destination, source)
}
