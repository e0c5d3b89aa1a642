// The masked writes that take an old image of memory to a new one (C-16): each touches only bits that differ, so that a
// tool undoes nothing that another tool has set in the same byte.
#![tactic(auto)]

ghost use Rattle.std.specs.Prelude.{◌≡◌, true, false, ◌≤◌, ◌<◌, ◌*◌, length, take, IfSome};
ghost use Rattle.buffer.specs.Buffer.{over};
ghost use Rattle.tool_write_spec.specs.Writing.{pair_bytes};
ghost use Rattle.mask_diff_spec.specs.Differences.{difference, up_to_last, next_change};
ghost use Rattle.mask_diff_spec.specs.Writes.{AllUpdates};
ghost use Rattle.mask_diff.specs.Changes.{first_from, Finds};
ghost use Rattle.mask_diff.specs.Numbers.{change_bytes, numbers_of, change_is};

// The least room for pairs: that of the longest masked write.
const PAIRS_ROOM: usize = 64;

// The most pairs of a masked write.
const MOST_PAIRS: usize = 32;

// A masked write: the index of its first byte, and the number of its pairs.
#[derive(Clone, Copy)]
pub struct Change {
    pub start: usize,
    pub count: usize,
}

// Why none is looked for.
#[derive(Clone, Copy)]
pub enum DiffError {
    // The images differ in length.
    LengthsDiffer,
    // The buffer has no room for 32 pairs.
    BufferTooShort,
}

// The index of the first byte that differs, at or after `from`. By index here and below: `zip` asks both images where they
// end, and a byte took more instructions.
fn first_change(old: &[u8], new: &[u8], from: usize) -> Option<usize>
    requires { length old.now ≡ length new.now }
    ensures first { result ≡ first_from from (difference old.now new.now) }
    ensures inside { IfSome result (λ i. i < length old.now) }
{
    for i in from..old.len() {
        if old[i] != new[i] {
            return Some(i);
        }
    }
    None
}

// How many bytes there are up to the last that differs: all but those at the end that are the same. It is kept apart:
// beside it the search for the first would have more to keep than there are registers for.
#[inline(never)]
fn count_changes(old: &[u8], new: &[u8]) -> usize
    requires { length old.now ≡ length new.now }
    ensures last { result ≡ up_to_last (difference old.now new.now) }
    ensures inside { result ≤ length old.now }
{
    for i in (0..old.len()).rev() {
        if old[i] != new[i] {
            return i + 1;
        }
    }
    0
}

// The pairs of two images, in front of a buffer.
fn put_changes(old: &[u8], new: &[u8], pairs: &mut [u8])
    requires { (length old.now ≡ length new.now) × (2 * length old.now ≤ length pairs.old) }
    ensures { pairs.new ≡ over (pair_bytes (difference old.now new.now)) pairs.old }
{
    // Not by `chunks_exact_mut`: of such a loan that is over, a proof knows the length alone.
    for i in 0..old.len() {
        let mask = old[i] ^ new[i];
        pairs[2 * i] = mask;
        pairs[2 * i + 1] = new[i] & mask;
    }
}

// The next masked write at or after the index `from`, out of those that take the old image to the new one; `None` where
// no byte differs there. Its pairs are put in front of the lent buffer, each as a mask and then its data.
#[tactic(auto, unfolding(mask_diff_spec::specs::Differences::next_change))]
pub fn next_change(
    old: &[u8],
    new: &[u8],
    from: usize,
    pairs: &mut [u8],
) -> Result<Option<Change>, DiffError>
    ensures finds { Finds (next_change old.now new.now from (length pairs.old)) result pairs.old pairs.new }
    ensures updates { AllUpdates }
{
    if old.len() != new.len() {
        return Err(DiffError::LengthsDiffer);
    }
    if pairs.len() < PAIRS_ROOM {
        return Err(DiffError::BufferTooShort);
    }
    let Some(start) = first_change(old, new, from) else {
        return Ok(None);
    };
    let most = start + MOST_PAIRS.min(old.len() - start);
    let count = count_changes(&old[start..most], &new[start..most]);
    let end = start + count;
    put_changes(&old[start..end], &new[start..end], pairs);
    Ok(Some(Change { start, count }))
}

// The numbers of an answer in the 24 bytes that a caller in C lends for them.
fn put_numbers(refusal: u32, given: bool, start: usize, count: usize, change: &mut [u8; 24])
    ensures { change.new ≡ change_bytes refusal given start count }
{
    *change = [0; 24];
    change[0..4].copy_from_slice(&refusal.to_le_bytes());
    change[4] = given as u8;
    change[8..16].copy_from_slice(&start.to_le_bytes());
    change[16..24].copy_from_slice(&count.to_le_bytes());
}

// An answer as numbers for a caller in C: 1 for images that differ in length, 2 for a buffer that is too short, or 0;
// whether there is a change; the index of its first byte and the number of its pairs. A number that the case does not
// name is 0.
pub fn put_change(next: Result<Option<Change>, DiffError>, change: &mut [u8; 24])
    ensures { (change.new ≡ numbers_of next) × (change_is change.new ≡ next) }
{
    match next {
        Err(DiffError::LengthsDiffer) => put_numbers(1, false, 0, 0, change),
        Err(DiffError::BufferTooShort) => put_numbers(2, false, 0, 0, change),
        Ok(None) => put_numbers(0, false, 0, 0, change),
        Ok(Some(Change { start, count })) => put_numbers(0, true, start, count, change),
    }
}
