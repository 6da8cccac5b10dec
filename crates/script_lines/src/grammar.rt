//! The bytes that have a meaning of their own in the language of scripts.

/// The mark before the number of an object: `#3`.
pub const OBJECT_MARK: u8 = b'#';

/// The mark before the number of a resource: `r0`.
pub const RESOURCE_MARK: u8 = b'r';

/// The mark before the number of an adapter: `A7`.
pub const ADAPTER_MARK: u8 = b'A';

/// The mark before the name of a literal: `:NOVEL`.
pub const LITERAL_MARK: u8 = b':';

/// Begins and ends a text: `"Emma"`.
pub const QUOTE: u8 = b'"';

/// Escapes the byte after it in a text.
pub const BACKSLASH: u8 = b'\\';

/// The mark before the digits of a number below 0: `-12`.
pub const MINUS: u8 = b'-';

/// Separates words.
pub const SPACE: u8 = b' ';

/// Ends a line.
pub const NEWLINE: u8 = b'\n';
