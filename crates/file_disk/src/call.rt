//! The calls of the system on a file.

/// A call of the system on a file, with its arguments. The `bool` says whether the call succeeded. `Opened` has no `bool`, since it is
/// recorded only after success.
#[derive(Clone, Copy)]
pub enum Call<'a> {
    /// The file was opened and synced, and then read: it has these bytes.
    Opened(&'a [u8]),
    /// A write of bytes from an offset on.
    Written(usize, &'a [u8], bool),
    /// A cut of the file to a length.
    Cut(usize, bool),
    /// A sync of the file.
    Synced(bool),
}
