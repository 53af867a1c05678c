//! The limits of a script.

/// The greatest number of a connection or a forward, the latest moment, and the most octets that the settings may give a store.
pub const GREATEST_COUNT: u64 = 999_999_999_999;

/// The most keys that the settings may give a store.
pub const GREATEST_KEYS: u64 = 999_999;

/// How many octets a line may have, with its line feed.
pub(crate) const LONGEST_LINE: usize = 64;
