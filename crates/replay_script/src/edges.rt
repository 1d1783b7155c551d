//! What stands at the edges of a line.
ghost use Rattle.std.specs.Prelude.{◌≡◌};
ghost use Rattle.replay_script.specs.Edges.{behind_word as behind_word_of, belongs, end_trimmed as end_trimmed_of, is_skipped as is_skipped_of, passed as passed_of, trimmed as trimmed_of};

/// A class of bytes.
#[derive(Clone, Copy, Drop)]
pub(crate) enum Class {
    /// A space or a tab, which may stand at the ends of a line.
    Blank,
    /// A space, which parts words.
    Space,
    /// A byte of a word.
    Ink,
}

impl Class {
    fn has(self, byte: u8) -> bool
        ensures { result ≡ belongs self byte }
    {
        match self {
            Class::Blank => byte == b' ' || byte == b'\t',
            Class::Space => byte == b' ',
            Class::Ink => byte != b' ',
        }
    }
}

/// Whether a line is skipped: it is empty, or its first byte is `#`.
pub(crate) fn is_skipped(line: &[u8]) -> bool
    ensures { result ≡ is_skipped_of line.now }
{
    match line {
        [] => true,
        [first, ..] => *first == b'#',
    }
}

// What stands behind the bytes of a class at the front.
fn passed(class: Class, text: &[u8]) -> &[u8]
    ensures { result.now ≡ passed_of class text.now }
{
    for (i, byte) in text.iter().enumerate() {
        if !class.has(*byte) {
            return &text[i..];
        }
    }
    &[]
}

// Without the blanks at the end.
fn end_trimmed(text: &[u8]) -> &[u8]
    ensures { result.now ≡ end_trimmed_of text.now }
{
    let mut front = text;
    while let Some((last, before)) = front.split_last() {
        if !Class::Blank.has(*last) {
            return front;
        }
        front = before;
    }
    front
}

/// Without the blanks at both ends.
pub(crate) fn trimmed(line: &[u8]) -> &[u8]
    ensures { result.now ≡ trimmed_of line.now }
{
    end_trimmed(passed(Class::Blank, line))
}

/// What stands behind the first word and the spaces after it.
pub(crate) fn behind_word(text: &[u8]) -> &[u8]
    ensures { result.now ≡ behind_word_of text.now }
{
    passed(Class::Space, passed(Class::Ink, text))
}
