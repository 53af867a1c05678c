/// What a response is validated by.
#[derive(Clone, Copy)]
pub enum Validator<'a> {
    /// Its entity-tag, with the mark of a weak one.
    Tag(&'a [u8]),
    /// Its Last-Modified, be it a date or not.
    Modified(&'a [u8]),
    /// It has neither.
    Neither,
}
