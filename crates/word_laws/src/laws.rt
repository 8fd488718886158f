//! Laws of words and counts. Each stands as a function with an empty body, whose clauses are the laws.
ghost use Rattle.std.specs.Prelude.{◌≡◌, ◌*◌, ◌↔◌, ℕ, Bool, List, length, pos};
ghost use Rattle.std.specs.List.{AllByRecursion};
ghost use Rattle.rational.specs.Fraction.{Fraction, whole};
ghost use Rattle.task_core.specs.Words.{IsWord};
ghost use Rattle.pattern.specs.Word.{copies};
ghost use Rattle.word_laws.specs.Counts.{AreCountsOf, spelled};

/// The words of n copies are just those that counts spell, one for each place of each copy.
pub fn words_are_spelled_by_counts()
    ensures { (rolls : ℕ → Bool) (places : List ℕ) (n : ℕ) (word : List ℕ)
        → IsWord rolls places n word ↔ ((counts : List Fraction) × AreCountsOf rolls (copies n places) counts × (spelled places n counts ≡ word)) }
{}

/// Such counts are whole and not below 0, and as many as places times copies: so `word_of` makes their word.
pub fn counts_are_those_of_a_word()
    ensures many { (rolls : ℕ → Bool) (places : List ℕ) (n : ℕ) (counts : List Fraction) → AreCountsOf rolls (copies n places) counts → length counts ≡ n * length places }
    ensures whole { (rolls : ℕ → Bool) (places : List ℕ) (n : ℕ) (counts : List Fraction) → AreCountsOf rolls (copies n places) counts
        → AllByRecursion (λ c. (k : ℕ) × (c ≡ whole (pos k))) counts }
{}
