//! What went wrong in a step.

ghost use Rattle.std.specs.Prelude.{◌≡◌, ◌<◌, [], ◌++◌, ◌∷◌, OnOk, true};
ghost use Rattle.hc_service.specs.declared.incidents.Incident.TheVariants.{Refused};
ghost use Rattle.hc_fields.specs.Numbers.{end_of_moments};
ghost use Rattle.hc_incoming.specs.Troubles.{refusal_status};
ghost use Rattle.hc_replies.specs.Replies.{generated_reply};
ghost use Rattle.hc_service.specs.Sending.{refusal_actions};

use hc_head::Target;
use hc_incoming::{Trouble, refusal_status};
use hc_reactions::refuse;
use hc_service::{Action, Incident};
use std::alloc::{AllocError, Global};

/// What went wrong in a step, in the order in which it did.
pub(crate) struct Incidents {
    noted: Vec<Incident>,
}

impl Drop for Incidents {
    fn drop(self) {
        let Incidents { noted } = self;
        drop(noted);
    }
}

impl Incidents {
    ghost use Rattle.std.specs.Prelude.{◌≡◌, [], ◌++◌, ◌∷◌, OnOk};
    ghost use Rattle.hc_service.specs.declared.incidents.Incident.TheVariants.{Failed, Refused};

    /// Nothing went wrong.
    pub(crate) fn new(alloc: Global) -> Self
        ensures { result.noted.items ≡ [] }
    {
        Incidents {
            noted: Vec::new(alloc),
        }
    }

    /// All of it.
    pub(crate) fn as_slice(&self) -> &[Incident]
        ensures { result.now ≡ self.now.noted.items }
    {
        self.noted.as_slice()
    }

    /// Forgets it, since another step begins.
    pub(crate) fn clear(&mut self)
        ensures { self.new.noted.items ≡ [] }
    {
        self.noted.clear();
    }

    /// What came from the client of that connection is refused.
    pub(crate) fn note_refusal(
        &mut self,
        connection: u64,
        trouble: Trouble,
    ) -> Result<(), AllocError>
        ensures { OnOk result (self.new.noted.items ≡ self.old.noted.items ++ Refused connection trouble ∷ []) }
    {
        self.noted.push(Incident::Refused {
            connection,
            trouble,
        })?;
        Ok(())
    }

    /// What came on that forward, which was made for that target, is no response.
    pub(crate) fn note_failure(
        &mut self,
        alloc: Global,
        forward: u64,
        target: &Target,
        trouble: Trouble,
    ) -> Result<(), AllocError>
        ensures { OnOk result (self.new.noted.items ≡ self.old.noted.items ++ Failed forward target.now trouble ∷ []) }
    {
        let target = target.copy(alloc)?;
        self.noted.push(Incident::Failed {
            forward,
            target,
            trouble,
        })?;
        Ok(())
    }
}

/// Refuses what came from the client of a connection, with the status that belongs to the trouble, and notes it.
pub(crate) fn refuse_client(
    alloc: Global,
    incidents: &mut Incidents,
    moment: u64,
    connection: u64,
    trouble: Trouble,
    actions: &mut Vec<Action>,
) -> Result<(), AllocError>
    requires { moment < end_of_moments }
    ensures noted { OnOk result (incidents.new.noted.items ≡ incidents.old.noted.items ++ Refused connection trouble ∷ []) }
    ensures actions { OnOk result (actions.new.items
        ≡ actions.old.items ++ refusal_actions connection (generated_reply (refusal_status trouble) moment true)) }
{
    incidents.note_refusal(connection, trouble)?;
    let status = refusal_status(trouble);
    refuse(alloc, moment, connection, status, actions)
}
