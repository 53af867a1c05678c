//! What holds of every response and request.

ghost use Rattle.std.specs.Prelude.{◌≡◌, true, false, ℕ, List, Some, All, Contains, IsTrue, codes};
ghost use Rattle.std.specs.Str.{str_to_ascii_lowercase};
ghost use Rattle.hc_fields.specs.declared.fields.Field.{Field};
ghost use Rattle.hc_fields.specs.Values.{has_name};
ghost use Rattle.hc_fields.specs.Lists.{members_of};
ghost use Rattle.hc_head.specs.declared.head.RequestHead.{RequestHead};
ghost use Rattle.hc_head.specs.declared.head.ResponseHead.{ResponseHead};
ghost use Rattle.hc_head.specs.Statuses.{not_modified, partial_content};
ghost use Rattle.hc_fresh.specs.Lifetimes.{says};
ghost use Rattle.hc_rules.specs.Storing.{may_store};
ghost use Rattle.hc_rules.specs.Selecting.{selects};
ghost use Rattle.hc_rules.specs.Validators.{tag_of};
ghost use Rattle.hc_rules.specs.Conditions.{client_condition};
ghost use Rattle.hc_rules.specs.Laws.{NamesSameLines, IsPlainRequest, IsPlainResponse};

/// A response that says `private` is never stored (RFC 9111 section 5.2.2.7).
pub fn private_is_never_stored()
    ensures { (forward : RequestHead) (response : ResponseHead)
        → IsTrue (says (codes "private") response.fields)
        → may_store forward response ≡ false }
{}

/// Nor is one that says `no-store` and not `must-understand` (RFC 9111 sections 5.2.2.3 and 5.2.2.5).
pub fn no_store_is_never_stored()
    ensures { (forward : RequestHead) (response : ResponseHead)
        → IsTrue (says (codes "no-store") response.fields)
        → says (codes "must-understand") response.fields ≡ false
        → may_store forward response ≡ false }
{}

/// Nor is one to a request that says `no-store` (RFC 9111 section 5.2.1.5).
pub fn no_store_of_a_request_holds()
    ensures { (forward : RequestHead) (response : ResponseHead)
        → IsTrue (says (codes "no-store") forward.fields)
        → may_store forward response ≡ false }
{}

/// Nor is one to a request with Authorization, unless it says `must-revalidate`, `public` or
/// `s-maxage` (RFC 9111 section 3.5).
pub fn authorized_needs_permission()
    ensures { (forward : RequestHead) (response : ResponseHead)
        → IsTrue (has_name (codes "authorization") forward.fields)
        → says (codes "must-revalidate") response.fields ≡ false
        → says (codes "public") response.fields ≡ false
        → says (codes "s-maxage") response.fields ≡ false
        → may_store forward response ≡ false }
{}

/// Nor is one to a request with another method than GET.
pub fn only_get_is_stored()
    ensures { (forward : RequestHead) (response : ResponseHead)
        → ¬ (forward.method ≡ codes "GET")
        → may_store forward response ≡ false }
{}

/// Nor is a part of a body (RFC 9110 section 15.3.7).
pub fn partial_is_never_stored()
    ensures { (forward : RequestHead) (response : ResponseHead)
        → response.status ≡ partial_content → may_store forward response ≡ false }
{}

/// Nor is what says that a stored response still holds (RFC 9110 section 15.4.5).
pub fn not_modified_is_never_stored()
    ensures { (forward : RequestHead) (response : ResponseHead)
        → response.status ≡ not_modified → may_store forward response ≡ false }
{}

/// A 200 to a GET without Authorization is stored where neither says `no-store`, nor it `private`.
pub fn plain_response_is_stored()
    ensures { (forward : RequestHead) (response : ResponseHead)
        → IsPlainRequest forward → IsPlainResponse response
        → may_store forward response ≡ true }
{}

/// A response whose Vary has the member `*` is selected by no request (RFC 9111 section 4.1).
pub fn asterisk_selects_nobody()
    ensures { (fields forwarded presented : List Field)
        → Contains (members_of (codes "vary") fields) (codes "*")
        → selects fields forwarded presented ≡ false }
{}

/// Nor is one whose Vary names a field that only one of the two requests has (RFC 9111 section 4.1).
pub fn field_of_one_request_selects_nobody()
    ensures { (fields forwarded presented : List Field) (member : List ℕ)
        → Contains (members_of (codes "vary") fields) member
        → IsTrue (has_name (str_to_ascii_lowercase member) forwarded)
        → has_name (str_to_ascii_lowercase member) presented ≡ false
        → selects fields forwarded presented ≡ false }
{}

/// A response is selected by a request that has the same lines as that which it answered, for each
/// name in its Vary, which has no `*` (RFC 9111 section 4.1).
pub fn same_lines_are_selected()
    ensures { (fields forwarded presented : List Field)
        → All (NamesSameLines forwarded presented) (members_of (codes "vary") fields)
        → selects fields forwarded presented ≡ true }
{}

/// A client that lists the tag of the stored 200 is told that it still holds (RFC 9110 section
/// 13.1.2).
pub fn listed_tag_still_holds()
    ensures { (presented fields : List Field) (tag : List ℕ)
        → Contains (members_of (codes "if-none-match") presented) tag
        → tag_of fields ≡ Some tag
        → client_condition presented 200 fields ≡ true }
{}
