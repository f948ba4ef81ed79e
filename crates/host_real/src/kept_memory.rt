// Memory that the C library keeps.
use std::random::RandomSource;

/// The largest block of whose release the C library's allocator learns, less what it adds to a block itself.
const LARGEST_BLOCK: usize = 32 * 1024 * 1024 - 64 * 1024;

/// Has the C library's allocator keep what is freed from now on, up to 64 MiB, in place of giving it back to the system at
/// once. A slice takes and frees some tens of MiB, which else are paged in anew each time.
///
/// glibc keeps twice the largest block that was ever freed, and learns of 32 MiB at most. So one such block is taken and
/// given back; of it a byte is touched. Without memory for it nothing is kept.
pub fn keep_freed_memory<R: RandomSource + AllocGlobal>(rt: &R) {
    let Ok(mut block) = Vec::with_capacity(rt.alloc(), LARGEST_BLOCK) else {
        return;
    };
    block.push_reserved(0_u8);
    // The system fills the byte, so that no compiler leaves the block out.
    let _filled = rt.fill_bytes(block.as_mut_slice());
}
