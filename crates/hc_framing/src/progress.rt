/// How far a message has come.
#[derive(Clone, Copy, PartialEq, Eq)]
pub enum Progress {
    /// Its end hasn't come.
    More,
    /// It is whole, with so many octets of the last piece.
    Whole(usize),
}
