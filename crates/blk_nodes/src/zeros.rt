//! The zeros of a block.
ghost use Rattle.std.specs.Prelude.{◌≡◌, ℕ, ◌≤◌, slice_index, vec_len, replicate, IfOk};
ghost use Rattle.blk_base.specs.Pieces.{block_size};

use blk_base::{NoMemory, PIECE};
use std::alloc::Global;

/// The bytes of a block that reads as zeros.
#[derive(Drop)]
pub(crate) struct Zeros {
    bytes: Vec<u8>,
    ghost whole: { vec_len bytes ≡ block_size },
    ghost zeros: { (k : ℕ) → slice_index bytes.items k ≡ 0 },
}

/// Any bytes of a block.
fn block(alloc: Global) -> Result<Vec<u8>, NoMemory>
    ensures { IfOk result (λ bytes. vec_len bytes ≡ block_size) }
{
    Ok(vec![in alloc; 0u8; PIECE as usize]?)
}

impl Zeros {
    pub(crate) fn new(alloc: Global) -> Result<Self, NoMemory> {
        let mut bytes = block(alloc)?;
        bytes.fill(0);
        Ok(Zeros { bytes })
    }

    /// So many zeros.
    pub(crate) fn first(&self, n: usize) -> &[u8]
        requires { n ≤ block_size }
        ensures { result.now ≡ replicate n 0 }
    {
        &self.bytes[..n]
    }
}
