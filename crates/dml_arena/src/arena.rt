//! The arena and its block.
ghost use Rattle.std.specs.Prelude.{◌≡◌, [], IfOk};
ghost use denote.RawPtr.{block_of, count_of};
ghost use types.Logic.{sem};
ghost use Rattle.dml_arena.specs.Opening.{arena_stays};

use crate::memory::{Lease, Memory};
use crate::region::Region;
use crate::span::Span;
use std::alloc::Global;
use std::marker::{Model, PhantomData};
use thiserror::Error;

/// Why no arena was made.
#[derive(Clone, Copy, PartialEq, Eq, Debug, Error)]
pub enum ArenaError {
    /// The allocator has no memory left for the block.
    #[error("out of memory")]
    NoMemory,
}

/// One block of raw memory, which is freed at its end.
pub struct Arena {
    memory: Memory,
    lease: Lease<Global>,
    alloc: Global,
    size: u32,
}

impl Model for Arena {
    ghost use Rattle.dml_arena.specs.Block.{Block};

    ghost Value = { Block };

    ghost use Rattle.dml_arena.specs.Block.{block_view, IsWhole};

    ghost view = { block_view };

    ghost invariant = { IsWhole };
}

impl Arena {
    /// Takes a block of `size` bytes, and writes none of them.
    ///
    /// # Errors
    ///
    /// `NoMemory` where the allocator refuses the block.
    pub fn new(alloc: Global, size: u32) -> Result<Arena, ArenaError>
        ensures { IfOk result (λ arena. arena.size ≡ size) }
    {
        match Memory::new(&alloc, size as usize) {
            Some((memory, lease)) => Ok(Arena {
                memory,
                lease: lease.located(),
                alloc,
                size,
            }),
            None => Err(ArenaError::NoMemory),
        }
    }

    /// Returns how many bytes its block has.
    pub fn size(&self) -> u32
        ensures { result ≡ self.now.size }
    {
        self.size
    }

    /// Lends the whole block as one region that holds no bytes. The arena is the same once all that was
    /// made of that region is gone.
    pub fn open(&mut self) -> Region<'_>
        ensures* stays { sem 𝓛 (arena_stays self.entry result.tie) }
        ensures opening { result.opening ≡ self.old.block }
        ensures whole { (result.start ≡ 0) × (result.room ≡ self.old.size) }
        ensures empty { result.bytes ≡ [] }
    {
        let room = self.size;
        let span = self.lend();
        Region {
            span,
            start: 0,
            room,
            len: 0,
        }
    }

    fn lend(&mut self) -> Span<'_>
        ensures* stays { sem 𝓛 (arena_stays self.entry result.tie) }
        ensures whole { (block_of result.ptr ≡ self.old.block) × (count_of result.ptr ≡ 0)
            × (result.room ≡ self.old.size) × (result.bytes ≡ []) }
    {
        let ptr = self.memory.ptr;
        Span {
            ptr,
            mark: PhantomData,
        }
    }
}

impl Drop for Arena {
    fn drop(self) {
        let Arena {
            memory,
            lease,
            alloc,
            size: _,
        } = self;
        memory.free(lease, &alloc);
    }
}
