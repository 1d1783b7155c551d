//! Where a word stands.

/// Where a word stands, by those in front of it.
#[derive(Clone, Copy)]
pub(crate) enum Place<'a> {
    /// It may be an option, an argument, or the `--` that ends the options.
    Among,
    /// It is the value of this option, or the second one of its two.
    Behind(&'a str),
    /// It is the first of the two values of this option.
    Before(&'a str),
    /// It is an argument, behind the end of the options.
    Last,
}
