// What comes of joining a frame: what the code gives back, as definitions in specs/, with what is owed for each
// outcome; the code is in `rx_join`.
#![tactic(auto)]

use can_frame::TransportRefusal;

// What a frame brings about. A finished datagram is the frame's own data, or the part of the pool from the first number
// up to the second.
#[derive(Clone, Copy)]
pub enum Outcome {
    Ignored,
    NoAnswer,
    TransportRefusal(TransportRefusal),
    InFrame,
    InPool(usize, usize),
}
