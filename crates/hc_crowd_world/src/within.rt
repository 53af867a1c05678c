//! Octets within others.

/// Whether the octets have those somewhere.
pub fn has_within(octets: &[u8], wanted: &[u8]) -> bool {
    'places: for place in 0..octets.len() {
        let (_, rest) = octets.split_at(place);
        if rest.starts_with(wanted) {
            return true;
        }
    }
    false
}
