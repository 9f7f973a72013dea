//! Tables of names: an enum's names, in the order in which it declares its variants.

ghost use Rattle.std.specs.Prelude.{◌≡◌, [], map, slice_index_or};

/// The name at this place, from 0, of a table of names, or an empty one beyond its end.
pub fn name_at(names: &'static [&'static str], place: usize) -> &'static str
    ensures { result.now ≡ slice_index_or (map (λ name. name.now) names.now) place [] }
{
    match names.get(place) {
        Some(name) => name,
        None => "",
    }
}
