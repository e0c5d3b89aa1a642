// The errors that a caller can make, with the papers' numbers and positions. In specs/ stands where each is given, and
// what holds of them; `call_limits` and `call_check` find them.
#![tactic(auto)]

ghost use Rattle.std.specs.Prelude.{◌≡◌};
ghost use Rattle.call_error.specs.CallErrors.{refusal_of};

// An error that the caller made, returned and never sent, under the number that the papers give it: document 01 calls
// these the house numbers. They stand here in the order in which they are tested. Those of a space bring its position
// in the description, counted from 0.
#[derive(Clone, Copy)]
pub enum CallError {
    B11TooManySpaces,
    B12MemoryTooLarge,
    B13FlashTooLarge,
    B14AliasOutOfRange,
    B2LowestAboveHighest(u8),
    B3WindowPastEnd(u8),
    B4MustBeReadOnly(u8),
    B5NumberUsedTwice(u8),
    B6ReplyBufferTooShort,
    B7BadReceptionState,
}

// What a check finds: nothing, or the first error that applies.
pub type Checked = Result<(), CallError>;

// The paper's number. A match, since variants that bring a position have no number that `as` could read.
pub fn number_of(error: CallError) -> u8
    ensures { result ≡ (refusal_of error).number }
{
    match error {
        CallError::B11TooManySpaces => 11,
        CallError::B12MemoryTooLarge => 12,
        CallError::B13FlashTooLarge => 13,
        CallError::B14AliasOutOfRange => 14,
        CallError::B2LowestAboveHighest(_) => 2,
        CallError::B3WindowPastEnd(_) => 3,
        CallError::B4MustBeReadOnly(_) => 4,
        CallError::B5NumberUsedTwice(_) => 5,
        CallError::B6ReplyBufferTooShort => 6,
        CallError::B7BadReceptionState => 7,
    }
}

// The position of the space that it refuses, counted from 0, where it refuses one: a blank is not a zero.
pub fn position_of(error: CallError) -> Option<u8>
    ensures { result ≡ (refusal_of error).position }
{
    match error {
        CallError::B11TooManySpaces => None,
        CallError::B12MemoryTooLarge => None,
        CallError::B13FlashTooLarge => None,
        CallError::B14AliasOutOfRange => None,
        CallError::B2LowestAboveHighest(position) => Some(position),
        CallError::B3WindowPastEnd(position) => Some(position),
        CallError::B4MustBeReadOnly(position) => Some(position),
        CallError::B5NumberUsedTwice(position) => Some(position),
        CallError::B6ReplyBufferTooShort => None,
        CallError::B7BadReceptionState => None,
    }
}
