//! Lists of places as text.

ghost use Rattle.std.specs.Prelude.{◌≡◌, ◌≢◌, ◌<◌, ◌^◌, ◌++◌, ℕ, All, List, true, false, string_bytes};
ghost use Rattle.std.specs.Prelude.{IfOk, OnErr, OnOk};
ghost use Rattle.pb_rows.specs.Numbers.{places_text};

use crate::number::read_number;
use itoa::Buffer;
use std::alloc::{AllocError, Allocator};

/// Reads a list of places into `places`, in any order and with repeats, and answers whether the
/// text is one: numbers as `read_number` reads them, with `,` between two. The empty text is the
/// empty list.
///
/// Where it is none, `places` holds some of the numbers, as it may where memory is refused.
pub fn read_place_list<A: Allocator>(
    text: &str,
    places: &mut Vec<u32, A>,
) -> Result<bool, AllocError>
    ensures listed { IfOk result (λ is_list. is_list ≡ true
        → text.now ≡ places_text places.new.items) }
    ensures other { IfOk result (λ is_list. is_list ≡ false
        → (list : List ℕ) → All (λ place. place < 2 ^ 32) list → text.now ≢ places_text list) }
{
    places.clear();
    if text.is_empty() {
        return Ok(true);
    }
    for piece in text.split(',') {
        let Some(place) = read_number(piece) else {
            return Ok(false);
        };
        places.push(place)?;
    }
    Ok(true)
}

/// Writes the places at the end of `text`, in decimal with `,` between two.
///
/// It fails only where memory is refused, and then some of them may stand there, after what stood there
/// before.
pub fn write_places<A: Allocator>(places: &[u32], text: &mut String<A>) -> Result<(), AllocError>
    ensures ok { OnOk result (string_bytes text.new ≡ string_bytes text.old ++ places_text places.now) }
    ensures err { OnErr result ((part : List ℕ) × (string_bytes text.new ≡ string_bytes text.old ++ part)) }
{
    let mut digits = Buffer::new();
    for (i, place) in places.iter().enumerate() {
        if i > 0 {
            text.push_str(",")?;
        }
        text.push_str(digits.format(*place))?;
    }
    Ok(())
}
