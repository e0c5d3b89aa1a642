// The rules of joining: what a frame does to the datagram of its source. They know no place and no byte, only numbers.
#![tactic(auto)]

ghost use Rattle.std.specs.Prelude.{◌≡◌, ◌+◌, leb};
ghost use Rattle.rx_step.specs.Step.{step_of, step_new, step_more, step_swallowed};

use can_frame::{Role, TransportRefusal};

// The most bytes that a datagram may have.
const LONGEST_DATAGRAM: u16 = 72;

// What a frame does. It is ignored; is a datagram by itself; opens one; is appended to the unfinished one; is appended
// to it and closes it; is refused, and the place of its source, if it has one, becomes free; is refused,
// and what follows is swallowed; is swallowed; or is swallowed and frees the place. A datagram by itself frees the
// place too, and one that is opened takes it.
#[derive(Clone, Copy)]
pub enum Step {
    Ignore,
    Deliver,
    Open,
    Append,
    Close,
    Refuse(TransportRefusal),
    RefuseAndSwallow(TransportRefusal),
    Swallow,
    SwallowLast,
}

// Whether a datagram may have so many bytes and so many more.
fn fits(len: u8, size: u8) -> bool
    ensures { result ≡ leb (len + size) 72 }
{
    len as u16 + size as u16 <= LONGEST_DATAGRAM
}

// A frame from a source with nothing unfinished.
fn step_new(role: Role) -> Step
    ensures { result ≡ step_new role }
{
    match role {
        Role::Ignored => Step::Ignore,
        Role::Single => Step::Deliver,
        Role::First => Step::Open,
        Role::Middle | Role::Last => Step::Refuse(TransportRefusal::OutOfOrder),
    }
}

// A frame with `size` bytes of data from a source that has `len` bytes unfinished.
fn step_more(role: Role, len: u8, size: u8) -> Step
    ensures { result ≡ step_more role len size }
{
    match role {
        Role::Ignored => Step::Ignore,
        Role::Single | Role::First => Step::RefuseAndSwallow(TransportRefusal::OutOfOrder),
        Role::Middle if size == 0 => Step::RefuseAndSwallow(TransportRefusal::OutOfOrder),
        Role::Middle if fits(len, size) => Step::Append,
        Role::Middle => Step::RefuseAndSwallow(TransportRefusal::TemporaryError),
        Role::Last if fits(len, size) => Step::Close,
        Role::Last => Step::Refuse(TransportRefusal::TemporaryError),
    }
}

// A frame from a source that is being swallowed.
fn step_swallowed(role: Role) -> Step
    ensures { result ≡ step_swallowed role }
{
    match role {
        Role::Ignored => Step::Ignore,
        Role::Single => Step::Deliver,
        Role::First => Step::Open,
        Role::Middle => Step::Swallow,
        Role::Last => Step::SwallowLast,
    }
}

// What a frame does: its role and the number of its data bytes, whether its source is unfinished, whether it is being
// swallowed then, and of how many bytes its datagram is otherwise.
#[tactic(auto, unfolding(crate::specs::Step::step_of))]
pub fn step_of(role: Role, size: u8, unfinished: bool, swallowing: bool, len: u8) -> Step
    ensures { result ≡ step_of role size unfinished swallowing len }
{
    if !unfinished {
        step_new(role)
    } else if swallowing {
        step_swallowed(role)
    } else {
        step_more(role, len, size)
    }
}
