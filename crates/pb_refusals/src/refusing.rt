//! An allocator that refuses one allocation.

use std::alloc::{AllocError, Allocator};
use std::sync::atomic::{AtomicU64, Ordering};

/// More allocations than any test makes.
const NEVER: u64 = u64::MAX / 2;

/// An allocator in front of another. It refuses one allocation, whichever thread makes it.
pub struct Refusing<B: Allocator> {
    inner: B,
    left: AtomicU64,
}

impl<B: Allocator> Refusing<B> {
    /// An allocator that refuses nothing.
    pub fn new(inner: B) -> Refusing<B> {
        Refusing {
            inner,
            left: AtomicU64::new(NEVER),
        }
    }

    /// Refuses the nth allocation from now on, from 1, and none after it.
    pub fn refuse(&self, nth: u64) {
        self.left.store(nth, Ordering::SeqCst);
    }

    /// Whether that allocation came and was refused.
    pub fn has_refused(&self) -> bool {
        let left = self.left.load(Ordering::SeqCst);
        left == 0 || left > NEVER
    }
}

impl<B: Allocator> Drop for Refusing<B> {
    fn drop(self) {
        let Self { inner: _, left: _ } = self;
    }
}

/// Counts an allocation, and answers whether it is the one to refuse.
fn is_refused(left: &AtomicU64) -> bool {
    left.fetch_sub(1, Ordering::SeqCst) == 1
}

unsafe impl<B: Allocator> Allocator for Refusing<B> {
    ghost dealloc_token = { λ heap ty ptr. B.dealloc_token heap.inner ty ptr };

    fn allocate(&self, size: usize, align: usize) -> Result<*mut u8, AllocError> {
        if is_refused(&self.left) {
            return Err(AllocError);
        }
        self.inner.allocate(size, align)
    }

    unsafe fn deallocate(&self, ptr: *mut u8, size: usize, align: usize) {
        self.inner.deallocate(ptr, size, align);
    }
}
