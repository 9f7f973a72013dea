//! Laws of the definitions.

ghost use Rattle.std.specs.Prelude.{◌≡◌, ◌≢◌, ◌↔◌, ◌<◌, ◌≤◌, ◌+◌, ◌*◌, ◌==◌, ◌&&◌, ◌||◌, ◌⊎◌, ◌++◌, ◌∷◌, [], ℕ, All, List, codes};
ghost use Rattle.std.specs.Prelude.{decimal, false, filter, flat_map, if◌then◌else◌, length, max, true};
ghost use Rattle.std.specs.List.{before_first};
ghost use Rattle.pb_page.specs.Content.{Part};
ghost use Rattle.pb_page.specs.Amount.{grouped, rounded, shown};
ghost use Rattle.pb_page.specs.Markup.{written};
ghost use Rattle.pb_page.specs.Page.{width};
ghost use Rattle.pb_page.specs.declared.markup.divided.Divided.{Divided};
ghost use Rattle.pb_page.specs.declared.markup.form.Form.{Form};

/// A text as it stands in a page never ends the attribute that it stands in, whichever of the two quotes (34,
/// 39) ends that, opens no tag (60) and closes none (62), and has no control character of ASCII. Each of its
/// characters stands as itself or as its number, which HTML reads as that character; and as an `&` (38) stands
/// as its number, each `&` that stands there begins a number. So a text is read as it was. All other characters
/// stand as themselves.
pub fn texts_stay_texts()
    ensures attribute { (quote : ℕ) (text after : List ℕ) → (quote ≡ 34) ⊎ (quote ≡ 39)
        → before_first (λ c. c == quote) (written text ++ quote ∷ after) ≡ written text }
    ensures tags { (text : List ℕ) → All (λ c. (c ≢ 60) × (c ≢ 62)) (written text) }
    ensures control { (text : List ℕ) → All (λ c. (32 ≤ c) × (c ≢ 127)) (written text) }
    ensures each { (c : ℕ) → ((c ≢ 38) × (written (c ∷ []) ≡ c ∷ []))
        ⊎ (written (c ∷ []) ≡ codes "&#" ++ (decimal c ++ codes ";")) }
    ensures plain { (c : ℕ) → 32 ≤ c → All (λ special. c ≢ special) (34 ∷ 38 ∷ 39 ∷ 60 ∷ 62 ∷ 127 ∷ [])
        → written (c ∷ []) ≡ c ∷ [] }
    ensures joined { (one other : List ℕ) → written (one ++ other) ≡ written one ++ written other }
{}

/// A text, whatever it is, adds no `<`, `>` or quote to a page, and takes none away: each is of the program's own
/// markup.
pub fn texts_add_no_markup()
    ensures { (before after : List Part) (text : List ℕ)
        → let delimiters = filter (λ (c : ℕ). (c == 60) || ((c == 62) || ((c == 34) || (c == 39)))) in
        delimiters (flat_map (λ part. part) (before ++ written text ∷ after))
        ≡ delimiters (flat_map (λ part. part) (before ++ after)) }
{}

/// The digits of a number stand in groups of three, counted from the last one, with a sign between the groups.
pub fn digits_stand_in_threes()
    ensures few { (group digits : List ℕ) → length digits ≤ 3 → grouped group digits ≡ digits }
    ensures more { (group digits three : List ℕ) → 0 < length digits → length three ≡ 3
        → grouped group (digits ++ three) ≡ grouped group digits ++ (group ++ three) }
{}

/// An amount of so many units, tenths and hundredths, as people write it: with a sign for the decimals and two
/// digits, which one without tenths and hundredths has not where amounts are whole.
pub fn amounts_stand_by_digits()
    ensures { (form : Form) (units tens ones : ℕ) → tens < 10 → ones < 10
        → shown form (100 * units + (10 * tens + ones)) ≡ form.before.now ++ (grouped form.group.now (decimal units)
        ++ ((if form.is_whole && (tens + ones == 0) then [] else form.point.now ++ (48 + tens) ∷ (48 + ones) ∷ [])
        ++ form.after.now)) }
{}

/// An amount in parts, rounded up, is the least number of hundredths that is at least the amount; rounded down, the
/// largest that is at most the amount. A divisor of 0 counts as 1.
pub fn amounts_are_rounded()
    ensures up { (d : Divided) (hundredths : ℕ) → d.is_up ≡ true
        → (rounded d ≤ hundredths) ↔ (d.amount ≤ hundredths * max 1 d.divisor) }
    ensures down { (d : Divided) (hundredths : ℕ) → d.is_up ≡ false
        → (hundredths ≤ rounded d) ↔ (hundredths * max 1 d.divisor ≤ d.amount) }
{}

/// How wide the bar of an amount is: the largest number of ten thousandths of the whole, 10,000 at most, that come to at
/// most the amount. A whole of 0 counts as 1.
pub fn bars_are_ten_thousandths()
    ensures { (amount whole n : ℕ) → (n ≤ width amount whole)
        ↔ ((n ≤ 10000) × (n * max 1 whole ≤ 10000 * amount)) }
{}
