//! What stands before the first space or line feed, and what stands behind it.

ghost use Rattle.std.specs.Prelude.{◌≡◌, ◌==◌, false, take, IfSome, IfNone};
ghost use Rattle.std.specs.List.{list_any};
ghost use Rattle.hc_scripts.specs.ScriptParts.{SplitsAt};

/// What stands before the first octet that is the mark, and what stands behind that.
pub(crate) fn split_at_mark(octets: &[u8], mark: u8) -> Option<(&[u8], &[u8])>
    ensures found { IfSome result (λ parts. SplitsAt mark octets.now parts.0.now parts.1.now) }
    ensures none { IfNone result (list_any (λ c. c == mark) octets.now ≡ false) }
{
    for (at, octet) in octets.iter().enumerate() {
        if *octet == mark {
            let (front, back) = octets.split_at(at);
            let (_, behind) = back.split_at(1);
            return Some((front, behind));
        }
    }
    None
}
