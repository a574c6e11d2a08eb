// Elements in their places: one put, a part copied or lent, of bytes or of anything else that is copied.
//
// Promises: each function is an equation over lists, for any elements, lengths and places. What would stand past the end is
// left out, so no function asks for room. Leaves to others: what the elements mean.
#![tactic(auto)]

ghost use Rattle.std.specs.Prelude.{◌≡◌, set, take, drop};
ghost use Rattle.std.proofs.lemmas.List.Edits.{sets};

// One element; past the end nothing is written.
pub fn put<T: Copy>(items: &mut [T], at: usize, x: T)
    ensures { items.new ≡ set items.old at x }
{
    if at < items.len() {
        items[at] = x;
    }
}

// The elements of `src` over the first of `dst`, as many as there is room for.
#[tactic(auto, using(crate::proofs::Bytes::sets_first))]
pub fn copy<T: Copy>(src: &[T], dst: &mut [T])
    ensures { dst.new ≡ sets dst.old 0 src.now }
{
    let n = src.len().min(dst.len());
    dst[..n].copy_from_slice(&src[..n]);
}

// A part, lent on from place `at`, takes the elements of `src`; no other changes.
pub fn put_part<T: Copy>(items: &mut [T], at: usize, src: &[T])
    ensures { items.new ≡ sets items.old at src.now }
{
    if at <= items.len() {
        copy(src, &mut items[at..]);
    }
}

// The elements of `src` from `at` on over `dst`.
pub fn take_part<T: Copy>(src: &[T], at: usize, dst: &mut [T])
    ensures { dst.new ≡ sets dst.old 0 (drop at src.now) }
{
    if at <= src.len() {
        copy(&src[at..], dst);
    }
}

// The part of `n` elements from `at` on, or as many of them as there are.
pub fn part<'a, T>(items: &'a [T], at: usize, n: usize) -> &'a [T]
    ensures { result.now ≡ take n (drop at items.now) }
{
    if at <= items.len() {
        if n <= items.len() - at {
            return &items[at..at + n];
        }
        return &items[at..];
    }
    &items[..0]
}
