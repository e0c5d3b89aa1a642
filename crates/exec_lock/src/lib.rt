// The lock memory: six bytes, zero where nobody holds it. They come in and go out by value; `change` stores an ID in a
// lock that is lent.
#![tactic(auto)]

ghost use Rattle.std.specs.Prelude.{◌≡◌};
ghost use Rattle.exec_lock.specs.Lock.{all_zero, lock_after, test_and_set};

// The lock memory: the ID that holds the lock, zero where none does.
#[derive(Clone, Copy)]
struct Lock {
    bytes: [u8; 6],
}

fn is_all_zero(bytes: [u8; 6]) -> bool
    ensures { result ≡ all_zero bytes }
{
    bytes == [0; 6]
}

// A lock that is lent, after an ID was sent: a zero ID releases it, whoever sends; another is stored only over zero.
fn change(lock: &mut Lock, id: [u8; 6])
    ensures { lock.new.bytes ≡ lock_after lock.old.bytes id }
{
    if is_all_zero(id) || is_all_zero(lock.bytes) {
        lock.bytes = id;
    }
}

// The lock memory after an ID was sent.
fn reserved(held: [u8; 6], id: [u8; 6]) -> [u8; 6]
    ensures { result ≡ lock_after held id }
{
    let mut lock = Lock { bytes: held };
    change(&mut lock, id);
    lock.bytes
}

// The test-and-set: the lock memory after an ID was sent. An ID has six bytes; one of any other length changes nothing.
pub fn test_and_set(held: [u8; 6], id: &[u8]) -> [u8; 6]
    ensures { result ≡ test_and_set held id.now }
{
    match *id {
        [a, b, c, d, e, f] => reserved(held, [a, b, c, d, e, f]),
        _ => held,
    }
}
