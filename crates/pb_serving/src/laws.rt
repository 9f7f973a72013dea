//! Laws of the definitions.

ghost use Rattle.std.specs.Prelude.{◌≡◌, ◌≢◌, ◌++◌, ℕ, All, List, [], ◌∷◌};
ghost use Rattle.pb_durable.specs.Opening.{cut_off};

/// What is cut off of the bytes behind a text: all but a first line end, which closes the text, and the line ends at the
/// end.
pub fn what_is_cut_off_is_its_words()
    ensures closed { (cut ends : List ℕ) → All (λ c. c ≡ 10) ends → ((front : List ℕ) → cut ≢ front ++ 10 ∷ [])
        → cut_off (10 ∷ (cut ++ ends)) ≡ cut }
    ensures unclosed { (cut ends : List ℕ) → All (λ c. c ≡ 10) ends
        → ((front : List ℕ) → cut ≢ front ++ 10 ∷ []) → ((rest : List ℕ) → cut ≢ 10 ∷ rest)
        → cut_off (cut ++ ends) ≡ cut }
{}
