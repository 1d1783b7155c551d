//! The value of an option.

/// The value that words give an option, as `--lanes`. An argument is the value of the empty name.
#[derive(Clone, Copy)]
pub(crate) struct Setting<'a> {
    pub name: &'a str,
    pub value: &'a str,
}
