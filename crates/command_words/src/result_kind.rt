//! As what a result is read.

/// As what the result of a call is read.
#[derive(Clone, Copy)]
pub enum ResultKind {
    /// Not at all.
    Nothing,
    /// `long long`.
    Long,
    /// `unsigned long`.
    Ulong,
    /// `boolean`.
    Flag,
    /// `sequence<octet>`.
    Octets,
}
