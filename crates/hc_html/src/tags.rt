//! The elements of a document.

ghost use Rattle.std.specs.Prelude.{◌≡◌};
ghost use Rattle.hc_html.specs.Marked.{class_text, tag_name};

/// What an element is.
#[derive(Clone, Copy)]
pub enum Tag {
    /// The heading of the document.
    H1,
    /// That of a part.
    H2,
    /// That of a part of one.
    H3,
    /// A paragraph.
    P,
    /// A block.
    Div,
    /// A list of names and values.
    Dl,
    /// A name.
    Dt,
    /// A value.
    Dd,
    /// A list in order.
    Ol,
    /// A list.
    Ul,
    /// An item of one.
    Li,
    /// What may be opened.
    Details,
    /// What stands there in any case.
    Summary,
    /// A piece of a text.
    Span,
    /// Octets, or what is typed.
    Code,
    /// A moment.
    Time,
    /// What the document is about.
    Main,
    /// What stands before that.
    Header,
    /// A part.
    Section,
}

impl Tag {
    /// Its name.
    pub(crate) fn name(self) -> &'static str
        ensures { result.now ≡ tag_name self }
    {
        match self {
            Tag::H1 => "h1",
            Tag::H2 => "h2",
            Tag::H3 => "h3",
            Tag::P => "p",
            Tag::Div => "div",
            Tag::Dl => "dl",
            Tag::Dt => "dt",
            Tag::Dd => "dd",
            Tag::Ol => "ol",
            Tag::Ul => "ul",
            Tag::Li => "li",
            Tag::Details => "details",
            Tag::Summary => "summary",
            Tag::Span => "span",
            Tag::Code => "code",
            Tag::Time => "time",
            Tag::Main => "main",
            Tag::Header => "header",
            Tag::Section => "section",
        }
    }
}

/// What an element is about, by which it is drawn.
#[derive(Clone, Copy)]
pub enum Class {
    /// Nothing that is drawn otherwise.
    Plain,
    /// The verdict is yes.
    Yes,
    /// It is no.
    No,
    /// The recording breaks.
    Broken,
    /// What was counted.
    Counts,
    /// By what was judged.
    Settings,
    /// A demand by a MUST.
    Must,
    /// By a SHOULD.
    Should,
    /// By what an RFC says otherwise.
    Stated,
    /// By a stricter rule.
    Own,
    /// What is asked, and what came.
    Asked,
    /// Groups of wrong replies.
    Groups,
    /// How many there are.
    Count,
    /// What is said by the way.
    Note,
    /// A target.
    Target,
    /// Where its wrong replies stand.
    Positions,
    /// The time line of a target.
    Log,
    /// A response.
    Response,
    /// One that validates.
    Validation,
    /// One that invalidates.
    Invalidation,
    /// An error, or no answer.
    Failure,
    /// A right hit.
    Hit,
    /// Another right reply.
    Other,
    /// A wrong reply.
    Wrong,
    /// An explanation.
    Why,
    /// A line of it.
    Line,
}

impl Class {
    /// How a tag says it.
    pub(crate) fn text(self) -> &'static str
        ensures { result.now ≡ class_text self }
    {
        match self {
            Class::Plain => "",
            Class::Yes => " class=yes",
            Class::No => " class=no",
            Class::Broken => " class=broken",
            Class::Counts => " class=counts",
            Class::Settings => " class=settings",
            Class::Must => " class=must",
            Class::Should => " class=should",
            Class::Stated => " class=stated",
            Class::Own => " class=own",
            Class::Asked => " class=asked",
            Class::Groups => " class=groups",
            Class::Count => " class=count",
            Class::Note => " class=note",
            Class::Target => " class=target",
            Class::Positions => " class=positions",
            Class::Log => " class=log",
            Class::Response => " class=response",
            Class::Validation => " class=validation",
            Class::Invalidation => " class=invalidation",
            Class::Failure => " class=failure",
            Class::Hit => " class=hit",
            Class::Other => " class=other",
            Class::Wrong => " class=wrong",
            Class::Why => " class=why",
            Class::Line => " class=line",
        }
    }
}
