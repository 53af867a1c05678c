//! The empty line that ends a head.

ghost use Rattle.std.specs.Prelude.{◌≡◌, ◌≢◌, ℕ, ◌<◌, ◌≤◌, length, take};
ghost use Rattle.hc_head.specs.declared.empty_line.Search.TheVariants.{Found};
ghost use Rattle.hc_head.specs.EmptyLine.{search_after, searched};

/// Where a search for the empty line that ends a head stands, behind the octets that it has seen
/// (RFC 9112 section 2.2: a line ends in CR LF or in LF alone). A search begins at `Blank`.
#[derive(Clone, Copy, PartialEq, Eq)]
pub enum Search {
    /// Among the empty lines before the head, if there are any.
    Blank,
    /// Inside a line.
    Line,
    /// At the start of a line.
    Start,
    /// Behind a CR at the start of a line.
    Return,
    /// Behind the empty line.
    Found,
}

impl Search {
    /// Where the search stands behind one octet more.
    fn after(self, octet: u8) -> Search
        ensures { result ≡ search_after self octet }
    {
        match (self, octet) {
            (Search::Found, _) => Search::Found,
            (Search::Start | Search::Return, b'\n') => Search::Found,
            (Search::Start, b'\r') => Search::Return,
            (Search::Line, b'\n') => Search::Start,
            (Search::Blank, b'\r' | b'\n') => Search::Blank,
            _ => Search::Line,
        }
    }
}

/// Goes on with a search, up to the end of the empty line. How many octets it looked at is told too.
pub fn find_empty_line(from: Search, octets: &[u8]) -> (Search, usize)
    ensures within { result.1 ≤ length octets.now }
    ensures stands { result.0 ≡ searched from (take result.1 octets.now) }
    // It looks at all octets, unless it finds the line.
    ensures all { result.0 ≢ Found → result.1 ≡ length octets.now }
    // No shorter front has the line.
    ensures first { (k : ℕ) → k < result.1 → searched from (take k octets.now) ≢ Found }
{
    if from == Search::Found {
        return (from, 0);
    }
    let mut reached = from;
    for (at, octet) in octets.iter().enumerate() {
        reached = reached.after(*octet);
        if reached == Search::Found {
            return (reached, at + 1);
        }
    }
    (reached, octets.len())
}
