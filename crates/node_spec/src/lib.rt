// The calls of a driver, for a whole datagram, for a frame and for a lone tick: what comes of each. The calls
// themselves and demand 3 are definitions, in specs/, with their theorem; the code that meets them is in `node_call`.
#![tactic(auto)]

use reply_answer::Answer;

// What comes of a frame: it is ignored; it is joined or swallowed and not answered; a transport refusal, sent as
// Rejected with its code; or the answer to the datagram that the frame finishes. The code is a number: what sends it, or
// hands it to C, takes any code.
#[derive(Clone, Copy)]
pub enum FrameAnswer {
    Ignored,
    Nothing,
    TransportRefusal(u16),
    Answered(Answer),
}
