// The eight places of the reception state, as they lie in their lent bytes, and the ticks by which a place grows old.
// But for what a place holds these are definitions, in specs/, with what is proved of them.
#![tactic(auto)]

// A place: whether it is held, how many bytes of the datagram are joined, the source, the driver's tick at that
// source's last accepted frame, and whether the source is being swallowed: then the length means nothing. Where the
// place is free, nothing else in it means anything.
#[derive(Clone, Copy)]
pub struct Place {
    pub held: bool,
    pub len: u8,
    pub source: u16,
    pub tick: u16,
    pub swallowing: bool,
}
