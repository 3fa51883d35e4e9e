// Writes into parts of lists, said place by place.
ghost use Rattle.std.specs.Prelude.{◌≡◌, ◌+◌, ◌<◌, ◌≤◌, ℕ, false, length, slice_index, slice_index_or, IfOk, if◌then◌else◌};
ghost use Rattle.record_disk.specs.Image.{marked, over};

use std::alloc::{AllocError, Global};

/// So many zeros.
pub(crate) fn zeros(alloc: Global, n: usize) -> Result<Vec<u8>, AllocError>
    ensures long { IfOk result (λ v. length v.items ≡ n) }
    ensures zeros { IfOk result (λ v. (i : ℕ) → slice_index v.items i ≡ 0) }
{
    Vec::from_elem(alloc, 0, n)
}

/// So many flags, none of them marked.
pub(crate) fn unmarked(alloc: Global, n: usize) -> Result<Vec<bool>, AllocError>
    ensures long { IfOk result (λ v. length v.items ≡ n) }
    ensures unmarked { IfOk result (λ v. (i : ℕ) → slice_index_or v.items i false ≡ false) }
{
    Vec::from_elem(alloc, false, n)
}

/// Puts the bytes from this place on.
pub(crate) fn put(target: &mut Vec<u8>, at: usize, bytes: &[u8])
    requires { at + length bytes.now ≤ length target.old.items }
    ensures long { length target.new.items ≡ length target.old.items }
    ensures bytes { (i : ℕ) → i < length target.old.items
        → slice_index target.new.items i ≡ over at (length bytes.now) bytes.now (λ k. slice_index target.old.items k) i }
{
    for (k, byte) in bytes.iter().enumerate() {
        target[at + k] = *byte;
    }
}

/// Marks so many flags from this place on.
pub(crate) fn mark(flags: &mut Vec<bool>, at: usize, count: usize)
    requires { at + count ≤ length flags.old.items }
    ensures long { length flags.new.items ≡ length flags.old.items }
    ensures marked { (i : ℕ) → i < length flags.old.items
        → slice_index_or flags.new.items i false ≡ marked at count (λ k. slice_index_or flags.old.items k false) i }
{
    for k in 0..count {
        flags[at + k] = true;
    }
}

/// Takes back all marks.
pub(crate) fn unmark(flags: &mut Vec<bool>)
    ensures long { length flags.new.items ≡ length flags.old.items }
    ensures unmarked { (i : ℕ) → i < length flags.old.items → slice_index_or flags.new.items i false ≡ false }
{
    for k in 0..flags.len() {
        flags[k] = false;
    }
}

/// Puts `fill` where a flag is marked, and else what was synced.
pub(crate) fn fill_marked(target: &mut Vec<u8>, synced: &[u8], dirty: &[bool], fill: u8)
    requires synced { length synced.now ≡ length target.old.items }
    requires dirty { length dirty.now ≡ length target.old.items }
    ensures long { length target.new.items ≡ length target.old.items }
    ensures filled { (i : ℕ) → i < length target.old.items
        → slice_index target.new.items i ≡ (if slice_index_or dirty.now i false then fill else slice_index synced.now i) }
{
    for i in 0..target.len() {
        target[i] = if dirty[i] { fill } else { synced[i] };
    }
}

/// These bytes at the front of as many as one write may have.
pub(crate) fn padded(bytes: &[u8]) -> [u8; 16]
    requires { length bytes.now ≤ 16 }
    ensures { (k : ℕ) → k < length bytes.now → slice_index result k ≡ slice_index bytes.now k }
{
    let mut all = [0; 16];
    for (k, byte) in bytes.iter().enumerate() {
        all[k] = *byte;
    }
    all
}
