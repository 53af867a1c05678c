/// What a reader of messages reads. A reader of requests looks at none; to a reader of responses
/// `Request` is a response to another method than HEAD.
#[derive(Clone, Copy, PartialEq, Eq)]
pub enum Kind {
    /// A request.
    Request,
    /// A response; `to_head` tells whether it answers HEAD.
    Response { to_head: bool },
}
