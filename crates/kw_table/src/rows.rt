//! `rows!`: a branch for each word of a table.

/// The value beside the word that a table has, or the last one where it has none.
///
/// `rows! { KEYWORDS, word; "and" => a, "not" => b; else => c }` looks `word` up in the table `KEYWORDS`, a const of 64
/// words at most. There is a row for each word, in the table's order: it is proved that the words are the table's.
#[macro_export]
macro_rules! rows {
    (@arms $table:ident [$($next:tt)*] [$($arms:tt)*] $found:expr; ; $otherwise:expr) => {
        match $found {
            $($arms)*
            Some(_) => unreachable!(),
            None => $otherwise,
        }
    };
    (@arms $table:ident [$index:literal $($next:tt)*] [$($arms:tt)*] $found:expr; $word:literal => $value:expr, $($rows:tt)*) => {
        $crate::rows!(@arms $table [$($next)*] [
            $($arms)*
            Some($index) => {
                let entry = $table.words[$index];
                prove!(entry == $word);
                $value
            }
        ] $found; $($rows)*)
    };
    ($table:ident, $key:expr; $($word:literal => $value:expr),* ; else => $otherwise:expr $(,)?) => {
        $crate::rows!(@arms $table [
            0 1 2 3 4 5 6 7 8 9 10 11 12 13 14 15 16 17 18 19 20 21 22 23 24 25 26 27 28 29 30 31
            32 33 34 35 36 37 38 39 40 41 42 43 44 45 46 47 48 49 50 51 52 53 54 55 56 57 58 59 60 61 62 63
        ] [] $table.find($key); $($word => $value,)* ; $otherwise)
    };
}
