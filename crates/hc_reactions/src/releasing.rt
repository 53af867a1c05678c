//! What a request gets that has waited for the forward of another one, once that has ended.

ghost use Rattle.std.specs.Prelude.{◌≡◌, IfOk};
ghost use Rattle.std.specs.Option.{option_copied};
ghost use Rattle.hc_service.specs.Joining.{shared};
ghost use Rattle.hc_service.specs.Reactions.{forward_alone};
ghost use Rattle.hc_reactions.specs.Releasing.{GivesRelease, shared_reply};

use crate::reacting::bare;
use hc_framing::Message;
use hc_head::{RequestHead, ResponseHead, Target};
use hc_rules::plain_request;
use hc_service::{WantedReply, collapsed_reply, may_be_shared};
use hc_store::Store;
use hc_update::Stored;
use std::alloc::{AllocError, Global};
use std::hash::BuildHasher;

/// The stored response that the store chose as the reply, where it may be shared.
fn shared_reply(
    alloc: Global,
    wanted: &WantedReply<'_>,
    chosen: Option<&Stored>,
) -> Result<Option<Message<ResponseHead>>, AllocError>
    ensures { IfOk result (λ reply. reply ≡ shared_reply wanted.now (shared wanted.now.moment (option_copied chosen.entry))) }
{
    let Some(stored) = chosen else {
        return Ok(None);
    };
    if !may_be_shared(stored, wanted.moment) {
        return Ok(None);
    }
    Ok(Some(collapsed_reply(alloc, wanted, stored)?))
}

/// The reply to a request for that target that has waited: what the store chooses for it now, where that is fresh
/// and may be used without validation (RFC 9111 section 4); `None` where it has to go to the origin itself. The
/// body is shared.
pub fn release<S: BuildHasher>(
    alloc: Global,
    store: &mut Store<S>,
    wanted: &WantedReply<'_>,
    target: &Target,
) -> Result<Option<Message<ResponseHead>>, AllocError>
    ensures { IfOk result (λ reply. GivesRelease wanted.now target.now store.old reply store.new) }
{
    let choice = store.choose(target, &wanted.asked.fields)?;
    shared_reply(alloc, wanted, choice.chosen)
}

/// The request by a forward of its own, which has no body.
pub fn forward_alone(
    alloc: Global,
    name: &[u8],
    target: &Target,
    asked: &RequestHead,
) -> Result<Message<RequestHead>, AllocError>
    ensures { IfOk result (λ forward. forward ≡ forward_alone name.now target.now asked.now) }
{
    Ok(bare(plain_request(alloc, name, target, asked)?))
}
