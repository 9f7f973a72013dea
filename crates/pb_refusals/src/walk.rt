//! How the refusal moves over the allocations of a call, from the first to the last.

use crate::checks::holds;
use crate::refusing::Refusing;
use pb_core::NoMemory;
use std::alloc::Global;
use std::process::Abort;

/// The allocator of these tests.
pub type Heap<'a> = &'a Refusing<Global>;

/// More allocations than any call of these tests makes.
pub const MOST: u64 = 1_000;

/// A call whose allocations are refused.
pub trait Call {
    /// Makes ready, lets the nth allocation from then on be refused, calls, and answers whether all is as it
    /// should be.
    fn run<R: Abort>(&self, rt: &R, heap: Heap<'_>, nth: u64) -> Result<bool, NoMemory>;
}

/// Refuses each allocation of the call in turn.
pub fn walk<R: Abort, C: Call>(rt: &R, alloc: Global, call: &C) {
    for nth in 1..=MOST {
        let heap = Refusing::new(alloc);
        let answer = call.run(rt, &heap, nth);
        let goes_on = goes_on(rt, &heap, nth, answer);
        drop(heap);
        if !goes_on {
            return;
        }
    }
}

/// Judges a run in which the nth allocation of a call was to be refused, and says whether there is another.
///
/// A run answers true where all is as with ample memory, and false where it is not. Where an allocation was
/// refused it may answer out of memory too; the run that meets no refusal is the last.
pub fn goes_on(
    rt: &impl Abort,
    heap: &Refusing<Global>,
    nth: u64,
    answer: Result<bool, NoMemory>,
) -> bool {
    if heap.has_refused() {
        holds(rt, answer != Ok(false), "a refused call", nth);
        holds(rt, nth < MOST, "it makes no end of allocations", nth);
        return true;
    }
    holds(rt, answer == Ok(true), "with ample memory", nth);
    holds(rt, nth > 1, "it makes no allocation", nth);
    false
}

/// What a run answers whose call found no memory: out of memory, where all was as before and the call, made
/// again with memory, answered as ever.
pub fn refused(is_as_before: bool) -> Result<bool, NoMemory> {
    if is_as_before {
        Err(NoMemory)
    } else {
        Ok(false)
    }
}
