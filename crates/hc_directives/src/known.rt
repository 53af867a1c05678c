//! The directives that the rules of a cache ask for.

ghost use Rattle.std.specs.Prelude.{◌≡◌, ◌||◌};
ghost use Rattle.hc_directives.specs.Directives.{is_named};
ghost use Rattle.hc_directives.specs.Spellings.{directive_meant};
ghost use Rattle.hc_directives.specs.KnownSteps.{first_seconds};

use crate::cache_control::Seconds;
use crate::spelling::Spelling;

/// Whether the name was there before, or is that of this directive.
fn has_name(before: bool, name: &[u8], directive: &Spelling<'_>) -> bool
    ensures { result ≡ (before || is_named name.now (directive_meant directive.now)) }
{
    before || directive.is_named(name)
}

/// The seconds that the first directive of that name says, where this one follows the others.
fn first_seconds(before: Seconds, name: &[u8], directive: &Spelling<'_>) -> Seconds
    ensures { result ≡ first_seconds before name.now (directive_meant directive.now) }
{
    if before != Seconds::Absent || !directive.is_named(name) {
        return before;
    }
    directive.seconds()
}

/// What Cache-Control lines say to the rules of a cache: whether a directive is there, whatever its
/// argument, or which seconds the first one of its name says (RFC 9111 section 5.2, RFC 5861).
#[derive(Clone, Copy)]
pub struct KnownDirectives {
    /// `no-store`.
    pub no_store: bool,
    /// `no-cache`.
    pub no_cache: bool,
    /// `private`.
    pub private: bool,
    /// `public`.
    pub public: bool,
    /// `must-understand`.
    pub must_understand: bool,
    /// `must-revalidate`.
    pub must_revalidate: bool,
    /// `proxy-revalidate`.
    pub proxy_revalidate: bool,
    /// `only-if-cached`.
    pub only_if_cached: bool,
    /// `s-maxage`.
    pub s_maxage: Seconds,
    /// `max-age`.
    pub max_age: Seconds,
    /// `max-stale`.
    pub max_stale: Seconds,
    /// `min-fresh`.
    pub min_fresh: Seconds,
    /// `stale-while-revalidate`.
    pub stale_while_revalidate: Seconds,
    /// `stale-if-error`.
    pub stale_if_error: Seconds,
}

impl KnownDirectives {
    ghost use Rattle.hc_directives.specs.KnownSteps.{none_known, with_directive};

    /// What is known where no directive is there.
    pub(crate) fn none() -> Self
        ensures { result ≡ none_known }
    {
        KnownDirectives {
            no_store: false,
            no_cache: false,
            private: false,
            public: false,
            must_understand: false,
            must_revalidate: false,
            proxy_revalidate: false,
            only_if_cached: false,
            s_maxage: Seconds::Absent,
            max_age: Seconds::Absent,
            max_stale: Seconds::Absent,
            min_fresh: Seconds::Absent,
            stale_while_revalidate: Seconds::Absent,
            stale_if_error: Seconds::Absent,
        }
    }

    /// What is known where this directive follows the others.
    #[tactic(auto, unfolding(crate::specs::KnownSteps::with_directive))]
    pub(crate) fn with(self, directive: &Spelling<'_>) -> Self
        ensures { result ≡ with_directive self (directive_meant directive.now) }
    {
        KnownDirectives {
            no_store: has_name(self.no_store, b"no-store", directive),
            no_cache: has_name(self.no_cache, b"no-cache", directive),
            private: has_name(self.private, b"private", directive),
            public: has_name(self.public, b"public", directive),
            must_understand: has_name(self.must_understand, b"must-understand", directive),
            must_revalidate: has_name(self.must_revalidate, b"must-revalidate", directive),
            proxy_revalidate: has_name(self.proxy_revalidate, b"proxy-revalidate", directive),
            only_if_cached: has_name(self.only_if_cached, b"only-if-cached", directive),
            s_maxage: first_seconds(self.s_maxage, b"s-maxage", directive),
            max_age: first_seconds(self.max_age, b"max-age", directive),
            max_stale: first_seconds(self.max_stale, b"max-stale", directive),
            min_fresh: first_seconds(self.min_fresh, b"min-fresh", directive),
            stale_while_revalidate: first_seconds(
                self.stale_while_revalidate,
                b"stale-while-revalidate",
                directive,
            ),
            stale_if_error: first_seconds(self.stale_if_error, b"stale-if-error", directive),
        }
    }
}
