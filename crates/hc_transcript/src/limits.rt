//! The limits of a transcript.

/// The greatest number of an exchange or a forward.
pub const GREATEST_NUMBER: u64 = 999_999_999_999;

/// The last moment of the year 9999, in whole seconds since 1970.
pub const GREATEST_MOMENT: u64 = 253_402_300_799;

/// How many octets a message may have: a recorded head and a body, each as long as it may be.
pub const LONGEST_MESSAGE: u64 = 16_908_288;

/// How many octets a record's line may have, with its line feed.
pub(crate) const LONGEST_LINE: usize = 64;
