// A loan of neighbouring bytes of the block, the first of which hold values.
ghost use Rattle.std.specs.Prelude.{◌≡◌, ℕ, ◌+◌, ◌-◌, ◌^◌, ◌<◌, ◌≤◌, List, [], ◌++◌, ◌⊎◌, length, take};
ghost use base.Fml.{GName};
ghost use denote.RawPtr.{Ptr, block_ptr, block_of, count_of};
ghost use types.Logic.{sem};
ghost use Rattle.dml_arena.specs.Ownership.{span_owns, span_lent, room_of, holds_at};
ghost use Rattle.core.specs.Mem.Slots.{slots_len, slots_ptr, slots_items, slots_filled};
ghost use Rattle.core.specs.Mem.Slots.Ownership.{Filled};

use core::slots::Slots;
use std::marker::{Model, PhantomData, Send};
use std::ptr::copy;

// `name` is the name of that loan. What the arena is after all its loans is told by the name `tie`.
#[derive(Drop)]
pub(crate) struct Span<'a> {
    pub(crate) ptr: *mut u8,
    pub(crate) mark: PhantomData<&'a mut u8>,
    pub(crate) ghost name: { GName },
    pub(crate) ghost tie: { GName },
    pub(crate) ghost room: { ℕ },
    pub(crate) ghost bytes: { List ℕ },
    pub(crate) ghost fits: { count_of ptr + room < 2 ^ 63 },
    pub(crate) ghost held: { length bytes ≤ room },
    pub(crate) ghost solid: { ptr ≡ block_ptr (block_of ptr) (count_of ptr) },
}

impl<'a> Model for Span<'a> {
    ghost also_owns = { λ s. span_owns 'a s.name s.ptr s.room s.bytes };

    ghost also_shares = { λ s _. span_lent 'a s.ptr s.bytes };
}

// SAFETY: what a span owns, `span_owns`, is a `&mut` to bytes that no other span has, and bytes may move between
// threads.
unsafe impl Send for Span<'_> {}

impl<'a> Span<'a> {
    pub(crate) fn bytes(&self, len: usize) -> &[u8]
        requires { len ≡ length self.now.bytes }
        ensures { result.now ≡ self.now.bytes }
    {
        // SAFETY: `len` is the number of bytes held, by the `requires`. They hold values and are lent for as long as
        // `self` is, by `span_lent`; `fits` keeps their end within the block.
        unsafe { std::slice::from_raw_parts(self.ptr, len) }
    }

    // The first `n` bytes of room, and the rest.
    pub(crate) fn cut(self, n: usize) -> (Span<'a>, Span<'a>)
        requires { (n ≤ self.room) × (self.bytes ≡ []) }
        ensures front { (result.0.ptr ≡ self.entry.ptr) × (result.0.room ≡ n) × (result.0.bytes ≡ []) }
        ensures back { (block_of result.1.ptr ≡ block_of self.entry.ptr)
            × (count_of result.1.ptr ≡ count_of self.entry.ptr + n) × (result.1.room ≡ self.entry.room - n)
            × (result.1.bytes ≡ []) }
    {
        let Span { ptr, mark } = self;
        // SAFETY: `n` is at most the room, by the `requires`, and the whole room is of one block, by `solid` and
        // `fits`.
        let back = unsafe { ptr.add(n) };
        (
            Span { ptr, mark },
            Span {
                ptr: back,
                mark: PhantomData,
            },
        )
    }

    // Puts `src` behind the bytes that it holds, `len` of them.
    pub(crate) fn extend(&mut self, len: usize, src: &[u8])
        requires { (len ≡ length self.old.bytes) × (len + length src.now ≤ self.old.room) }
        ensures place { (self.new.ptr ≡ self.old.ptr) × (self.new.room ≡ self.old.room)
            × (self.new.tie ≡ self.old.tie) }
        ensures bytes { self.new.bytes ≡ self.old.bytes ++ src.now }
    {
        // SAFETY: `len` bytes are held and `src` fits behind them, by the `requires`: what `span_owns` has there is
        // room, which `fill` asks for. `src` is borrowed, so it lies elsewhere.
        unsafe { fill(self.ptr.add(len), src) }
    }

    // The bytes past the first `_len` become room again.
    pub(crate) fn shorten(&mut self, _len: usize)
        requires { _len ≤ length self.old.bytes }
        ensures place { (self.new.ptr ≡ self.old.ptr) × (self.new.room ≡ self.old.room)
            × (self.new.tie ≡ self.old.tie) }
        ensures bytes { self.new.bytes ≡ take _len self.old.bytes }
    {}

    // Two neighbours as one, where the second's bytes already stand right behind the first's.
    pub(crate) fn meet(self, next: Span<'a>) -> Span<'a>
        requires beside { (block_of next.ptr ≡ block_of self.ptr)
            × (count_of next.ptr ≡ count_of self.ptr + self.room) }
        requires touching { (length self.bytes ≡ self.room) ⊎ (next.bytes ≡ []) }
        ensures place { (result.ptr ≡ self.entry.ptr) × (result.room ≡ self.entry.room + next.entry.room)
            × (result.tie ≡ self.entry.tie) }
        ensures bytes { result.bytes ≡ self.entry.bytes ++ next.entry.bytes }
    {
        let Span { ptr, mark } = self;
        let Span { ptr: _, mark: _ } = next;
        Span { ptr, mark }
    }

    // Two neighbours as one, where the second's `count` bytes move down to the first's `len`.
    pub(crate) fn join(self, len: usize, next: Span<'a>, count: usize) -> Span<'a>
        requires beside { (block_of next.ptr ≡ block_of self.ptr)
            × (count_of next.ptr ≡ count_of self.ptr + self.room) }
        requires counts { (len ≡ length self.bytes) × (count ≡ length next.bytes) }
        requires apart { len < self.room }
        ensures place { (result.ptr ≡ self.entry.ptr) × (result.room ≡ self.entry.room + next.entry.room)
            × (result.tie ≡ self.entry.tie) }
        ensures bytes { result.bytes ≡ self.entry.bytes ++ next.entry.bytes }
    {
        let Span { ptr, mark } = self;
        let Span { ptr: from, mark: _ } = next;
        // SAFETY: by `beside` the second's room begins where the first's ends, by `counts` it holds `count` bytes, and
        // by `apart` they move down into the first's room. `copy` allows source and destination to overlap.
        unsafe { copy(from as *const u8, ptr.add(len), count) };
        Span { ptr, mark }
    }
}

// Copies all of `src` into the room at `dst`.
//
// SAFETY: the caller owns that room, by the `requires*`, and gets it back with the bytes, by the `ensures*`.
unsafe fn fill(dst: *mut u8, src: &[u8])
    requires* { sem 𝓛 (room_of dst (length src.now)) }
    ensures* { sem 𝓛 (holds_at dst src.now) }
{
    // SAFETY: the row is made of the room that the `requires*` hands over, as long as `src`; `filled` says that all of
    // it is filled when it is taken apart again.
    unsafe {
        let filled = filled_with(Slots::from_raw_parts(dst, src.len()), src);
        let _ = filled.into_raw_parts();
    }
}

fn filled_with(mut row: Slots<u8>, src: &[u8]) -> Slots<u8>
    requires { slots_len row ≡ length src.now }
    ensures place { (slots_ptr result ≡ slots_ptr row) × (slots_len result ≡ slots_len row) }
    ensures items { slots_items result ≡ src.now }
    ensures filled { Filled (slots_filled result) 0 (length src.now) }
{
    row.copy_in(0, src);
    row
}
