//! What a memory holds, as a law: the contract of a function that does nothing.
ghost use Rattle.std.specs.Prelude.{◌≡◌, ℕ, ◌+◌, ◌≤◌, ◌⊎◌, List, length, slice_range, IsTrue};
ghost use Rattle.dml_types.specs.Memory.{IsWhole, Memory, Put, has_all, put, puts_made};
ghost use Rattle.dml_buffers.specs.Holds.{Holds, HoldsEach, LieWithin, ShareNoByte, blank};

/// What a memory holds: what was put where all is present, or over a buffer of its length; what lies beside a put, one
/// within the memory or one over a buffer of its length; and each part of what it holds. Buffers that share no byte are
/// all held by some memory: by one of zeros into which they were put, one after another, and that one is whole.
pub fn law_of_buffers()
    ensures written { (memory : Memory) (address : ℕ) (bytes : List ℕ) →
        IsTrue (has_all memory address (length bytes)) → address + length bytes ≤ length memory.bytes →
        Holds (put memory address bytes) address bytes }
    ensures over { (memory : Memory) (address : ℕ) (old new : List ℕ) → Holds memory address old →
        length new ≡ length old → Holds (put memory address new) address new }
    ensures beside { (memory : Memory) (address other : ℕ) (bytes more : List ℕ) → Holds memory address bytes →
        other + length more ≤ length memory.bytes →
        (address + length bytes ≤ other) ⊎ (other + length more ≤ address) →
        Holds (put memory other more) address bytes }
    ensures kept { (memory : Memory) (address other : ℕ) (bytes old new : List ℕ) → Holds memory address bytes →
        Holds memory other old → length new ≡ length old →
        (address + length bytes ≤ other) ⊎ (other + length new ≤ address) →
        Holds (put memory other new) address bytes }
    ensures part { (memory : Memory) (address from n : ℕ) (bytes : List ℕ) → Holds memory address bytes →
        from + n ≤ length bytes → Holds memory (address + from) (slice_range bytes from (from + n)) }
    ensures some { (pages : ℕ) (buffers : List Put) → LieWithin pages buffers → ShareNoByte buffers →
        HoldsEach (puts_made (blank pages) buffers) buffers }
    ensures whole { (pages : ℕ) (buffers : List Put) → LieWithin pages buffers →
        IsWhole (puts_made (blank pages) buffers) }
{}
