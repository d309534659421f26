// What holds of the definitions: laws as functions that do nothing, whose contracts are the laws.
ghost use Rattle.std.specs.Prelude.{◌≡◌, ◌<◌, ◌%◌, ◌≢◌, ◌*ℤ◌, pos, ◌≤◌, ℕ, ℤ, Some, Ok, length, List, [], ◌∷◌, ◌++◌};
ghost use Rattle.opa_value.specs.declared.value.Value.{Value};
ghost use Rattle.std.specs.List.{AllZip};
ghost use Rattle.std.specs.Int.RustNames.{unsigned_abs};
ghost use Rattle.opa_value.specs.Arithmetic.{near, quotient, IsNearest};
ghost use Rattle.opa_value.specs.Below.{IsBelow};
ghost use Rattle.opa_value.specs.NumberText.{count_of, Spells, read_number, plain_text, money_text};
ghost use Rattle.opa_value.specs.Numbers.{InRange};
ghost use Rattle.opa_value.specs.Truth.{all_of, any_of, not_of, strict, all2_of, any2_of};

/// The tables over lists are folds of those over two values, from either end.
#[tactic(auto, using(crate::proofs::TruthLaws::tables))]
pub fn tables_fold()
    ensures all_last { (xs : List Value) (v : Value) → all2_of (all_of xs) v ≡ all_of (xs ++ v ∷ []) }
    ensures any_last { (xs : List Value) (v : Value) → any2_of (any_of xs) v ≡ any_of (xs ++ v ∷ []) }
    ensures all_first { (v : Value) (xs : List Value) → all2_of v (all_of xs) ≡ all_of (v ∷ xs) }
    ensures any_first { (v : Value) (xs : List Value) → any2_of v (any_of xs) ≡ any_of (v ∷ xs) }
{}

/// What a table or a strict operation tells stays where more is known of the values.
#[tactic(auto, using(crate::proofs::BelowLaws::below_laws))]
pub fn below_is_kept()
    ensures all { (us vs : List Value) → AllZip IsBelow us vs → IsBelow (all_of us) (all_of vs) }
    ensures any { (us vs : List Value) → AllZip IsBelow us vs → IsBelow (any_of us) (any_of vs) }
    ensures not { (u v : Value) → IsBelow u v → IsBelow (not_of u) (not_of v) }
    ensures strict { (f : List Value → Value) (us vs : List Value) → AllZip IsBelow us vs →
        IsBelow (strict f us) (strict f vs) }
{}

/// A rounded quotient is the nearest whole number, halves away from zero, and nothing else is.
#[tactic(auto, using(crate::proofs::Rounding::near_laws))]
pub fn rounded_is_nearest()
    ensures nearest { (p : ℤ) (q : ℕ) → 0 < q → IsNearest p (pos q) (near p q) }
    ensures alone { (p : ℤ) (q : ℕ) (r : ℤ) → 0 < q → IsNearest p (pos q) r → r ≡ near p q }
{}

/// The count of a quotient is the nearest to ten thousand times the quotient, and nothing else is.
pub fn quotient_is_nearest()
    ensures nearest { (x y r : ℤ) → quotient x y ≡ Some r → IsNearest (x *ℤ pos 10000) y r }
    ensures alone { (x y r : ℤ) → y ≢ pos 0 → IsNearest (x *ℤ pos 10000) y r → quotient x y ≡ Some r }
{}

/// A text is read as a count exactly where it has the form of a number's text and spells that count.
pub fn reading_is_spelling()
    ensures only { (text : List ℕ) (count : ℤ) → count_of text ≡ Some count → Spells text count }
    ensures each { (text : List ℕ) (count : ℤ) → Spells text count → count_of text ≡ Some count }
{}

/// A number's text, read, gives the number back; with two decimals, where the number has no more.
#[tactic(auto, using(crate::proofs::ReadBack::texts))]
pub fn texts_read_back()
    ensures plain { (count : ℤ) → InRange count → read_number (plain_text count) ≡ Ok count }
    ensures money { (count : ℤ) → InRange count → unsigned_abs count % 100 ≡ 0 →
        read_number (money_text count) ≡ Ok count }
{}

/// A plain text is the shortest that spells its number: it has no zeros that could be left out.
#[tactic(auto, using(crate::proofs::Shortest::plain_shortest))]
pub fn plain_is_shortest()
    ensures { (count : ℤ) (text : List ℕ) → InRange count → Spells text count →
        length (plain_text count) ≤ length text }
{}
