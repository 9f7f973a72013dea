//! Which of the added projects is which.

ghost use Rattle.std.specs.Prelude.{◌<◌, All, IfOk};
ghost use Rattle.pb_reasons.specs.Inner.Numbers.{AreNumbers};

use pb_core::no_memory::NoMemory;
use std::alloc::Global;

/// For each of this many projects its number among the added ones, from 0; as many as there are where it is
/// none of them.
pub(crate) fn numbers_of(
    alloc: Global,
    added: &[u32],
    projects: usize,
) -> Result<Vec<usize>, NoMemory>
    requires { All (λ place. place < projects) added.now }
    ensures { IfOk result (λ numbers. AreNumbers projects added.now numbers.items) }
{
    let mut numbers = vec![in alloc; added.len(); projects]?;
    let mut number = added.len();
    while number > 0 {
        number -= 1;
        let place = added[number];
        numbers[place as usize] = number;
    }
    Ok(numbers)
}
