//! Keywords in rising byte order, and the search among them. Begin with `Table`.
use std::convert::AsStr;

/// `N` words, each `W` a text. A table that is searched has them in rising byte order, each once.
#[derive(Debug, Drop)]
pub struct Words<W, const N: usize> {
    pub words: [W; N],
}

/// A table of literals.
pub type Table<const N: usize> = Words<&'static str, N>;

impl<W: AsStr, const N: usize> Words<W, N> {
    ghost use Rattle.std.specs.Prelude.{◌≡◌, IsTrue, ◌↔◌, ◌<◌, map, IfSome};
    ghost use Rattle.kw_table.specs.Table.{Rises, Finds};

    /// Whether each word is below the next.
    pub fn sorted(&self) -> bool
        ensures { IsTrue result ↔ Rises (map W.text self.now.words) }
    {
        let words = &self.words[..];
        for at in 1..words.len() {
            if words[at - 1].as_str() >= words[at].as_str() {
                return false;
            }
        }
        true
    }

    /// The index of the word.
    pub fn find(&self, word: &[u8]) -> Option<usize>
        requires { Rises (map W.text self.now.words) }
        ensures found { Finds (map W.text self.now.words) word.now result }
        ensures within { IfSome result (λ at. at < N) }
    {
        self.words
            .binary_search_by(|entry| entry.as_str().as_bytes().cmp(&word))
            .ok()
    }
}
