ghost use Rattle.std.specs.Prelude.{◌≡◌};

use crate::adding::add_to;
use crate::freshening::{NotModified, freshen_all};
use crate::trimming::drop_first;
use crate::weights::{room_behind_all, weight_within};
use hc_update::Stored;
use std::alloc::{AllocError, Global};
use std::marker::Model;

/// The variants of a key (RFC 9111 section 2), in the order in which they were added, which contracts
/// see as the list of them.
#[derive(Drop)]
pub struct Variants {
    pub(crate) list: Vec<Stored>,
}

/// What comes of trimming the variants of the most recent key.
#[derive(Clone, Copy)]
pub(crate) struct Settled {
    /// What those weigh that stay.
    pub(crate) weight: usize,
    /// What room they leave for other keys; none where some had to go.
    pub(crate) room: Option<usize>,
}

impl Model for Variants {
    ghost use Rattle.std.specs.Prelude.{List};
    ghost use Rattle.hc_update.specs.declared.stored.Stored.{Stored};

    ghost Value = { List Stored };

    ghost view = { λ v. v.list.items };
}

impl Variants {
    ghost use Rattle.std.specs.Prelude.{[], ◌∷◌, ◌-◌, ◌<◌, ◌≤◌, ◌==◌, false, length, IfOk, IsOk, OnOk, OnErr};
    ghost use Rattle.hc_fields.specs.Numbers.{end_of_moments};
    ghost use Rattle.hc_store.specs.Entries.{most_variants, variants_weight};
    ghost use Rattle.hc_store.specs.Changes.{added, last_variants};
    ghost use Rattle.hc_store.specs.Fates.{IsLeft};
    ghost use Rattle.hc_store.specs.Trims.{room_beside};
    ghost use Rattle.hc_store.specs.Views.{validation_seen};
    ghost use Rattle.hc_store.specs.Calls.{has_vary};

    /// The variants themselves.
    pub fn as_slice(&self) -> &[Stored]
        ensures { result.now ≡ self.now }
    {
        self.list.as_slice()
    }

    /// One variant.
    pub(crate) fn of(alloc: Global, stored: Stored) -> Result<Self, AllocError>
        ensures { IfOk result (λ v. v ≡ stored ∷ []) }
    {
        let mut list = Vec::new(alloc);
        list.push(stored)?;
        Ok(Variants { list })
    }

    /// Drops the first variants while they weigh more than that together.
    pub(crate) fn settle(&mut self, bytes: usize) -> Settled
        ensures variants { self.new ≡ last_variants bytes self.old }
        ensures weight { result.weight ≡ variants_weight self.new }
        ensures room { result.room ≡ room_beside bytes (variants_weight self.old) }
    {
        if let Some(room) = room_behind_all(bytes, self.list.as_slice()) {
            return Settled {
                weight: bytes - room,
                room: Some(room),
            };
        }
        drop_first(&mut self.list, bytes);
        Settled {
            weight: weight_within(bytes, self.list.as_slice()),
            room: None,
        }
    }

    /// Freshens those that the 304 is about, and removes those that found no memory or may not be what
    /// they became. Returns whether one was freshened.
    pub(crate) fn freshen(&mut self, validation: NotModified<'_>, keeps_cookies: bool) -> bool
        requires { validation.response_time < end_of_moments }
        ensures { IsLeft keeps_cookies (validation_seen validation.entry) self.old result self.new }
    {
        freshen_all(&mut self.list, validation, keeps_cookies)
    }

    /// Whether there is none.
    pub(crate) fn is_empty(&self) -> bool
        ensures { result ≡ (length self.now == 0) }
    {
        self.list.is_empty()
    }

    /// Adds a response in place of those that select its request, and of the first where there are as
    /// many as may be. Where memory was refused, nothing has changed.
    pub(crate) fn add(&mut self, alloc: Global, stored: Stored) -> Result<(), AllocError>
        requires { length self.old ≤ most_variants }
        ensures ok { OnOk result (self.new ≡ added stored self.old) }
        ensures err { OnErr result (self.new ≡ self.old) }
        ensures no_vary { 0 < length self.old → has_vary self.old ≡ false → IsOk result }
    {
        add_to(alloc, &mut self.list, stored)
    }
}
