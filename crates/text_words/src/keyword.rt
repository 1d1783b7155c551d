ghost use Rattle.std.specs.Prelude.{◌≡◌, IfSome};
ghost use Rattle.text_words.specs.Keyword.{named_in};

/// A value that one fixed word stands for, as a kind of line.
pub trait Worded: Copy {
    ghost use Rattle.std.specs.Prelude.{ℕ, List};

    ghost text: { Self → List ℕ };

    /// Its word.
    fn word(self) -> &'static [u8]
        ensures { result.now ≡ text self };
}

/// The first of `all` whose word this is.
pub fn find_word<K: Worded>(all: &[K], word: &[u8]) -> Option<K>
    ensures found { result ≡ named_in K.text all.now word.now }
    ensures text { IfSome result (λ k. word.now ≡ K.text k) }
{
    for kind in all {
        if kind.word() == word {
            return Some(*kind);
        }
    }
    None
}
