ghost use Rattle.std.specs.Prelude.{◌≡◌, ◌<◌, ◌≤◌, [], IfOk};
ghost use Rattle.hc_store.specs.Entries.{IsWithin, entries_weight};
ghost use Rattle.hc_store.specs.Views.{held};

use crate::choosing::{chosen_place, chosen_validated_place};
use crate::cookies::may_hold;
use crate::freshening::NotModified;
use crate::keys::{freshen_key, lend, lend_of_recent, put_in, remove_key};
use crate::putting::Put;
use crate::variants::Variants;
use crate::weights::is_small_enough;
use hc_fields::Fields;
use hc_head::Target;
use hc_update::Stored;
use lru::{DefaultHasher, Iter, LruCache};
use std::alloc::{AllocError, Global};
use std::hash::{BuildHasher, BuildHasherDefault};
use std::marker::Model;
use std::num::NonZeroUsize;

/// What a cache keeps: the responses of targets, within bounds. Contracts see it as the list of its keys, the
/// most recently used first, each with its variants in the order in which they were added.
#[derive(Drop)]
pub struct Store<S: BuildHasher = DefaultHasher> {
    keys: LruCache<Target, Variants, S>,
    /// What all that is held weighs.
    weight: usize,
    /// The most that it may weigh.
    bytes: usize,
    /// Whether responses that set a cookie are kept.
    keeps_cookies: bool,
    /// How many keys went since room or memory lacked.
    evicted: u64,
}

impl<S: BuildHasher> Model for Store<S> {
    ghost use Rattle.std.specs.Prelude.{◌≡◌};
    ghost use Rattle.hc_store.specs.Entries.{Holdings, IsWithin, entries_weight};
    ghost use Rattle.hc_store.specs.Views.{held};

    ghost Value = { Holdings };

    ghost view = { λ s. held s.bytes s.keeps_cookies s.keys };

    ghost invariant = { λ s. (s.weight ≡ entries_weight s.keys.entries) × IsWithin (held s.bytes s.keeps_cookies s.keys) };
}

/// What a store has for a request.
#[derive(Clone, Copy)]
pub struct Choice<'a> {
    /// Whether something is stored of the target.
    pub is_known: bool,
    /// The variant that the request is answered from.
    pub chosen: Option<&'a Stored>,
}

/// Which variant of a key is chosen.
#[derive(Clone, Copy)]
struct PlaceChoice {
    /// Whether the key is there.
    is_known: bool,
    /// The place of the variant among those of the key.
    place: Option<usize>,
}

impl Store<DefaultHasher> {
    ghost use Rattle.hc_store.specs.Entries.{empty};

    /// An empty store of at most so many keys, from 1 to 65,536, and so many octets, counted as weights are;
    /// and whether it keeps responses that set a cookie.
    ///
    /// Keys are hashed with a fixed seed. For targets that an attacker picks, use `with_hasher` with a
    /// `RandomState`.
    pub fn new(
        alloc: Global,
        keys: usize,
        bytes: usize,
        keeps_cookies: bool,
    ) -> Result<Self, AllocError>
        requires some { 0 < keys }
        requires few { keys ≤ 65536 }
        ensures { IfOk result (λ store. store ≡ empty keys bytes keeps_cookies) }
    {
        Store::with_hasher(alloc, keys, bytes, keeps_cookies, BuildHasherDefault::new())
    }
}

impl<S: BuildHasher + Drop> Store<S> {
    ghost use Rattle.hc_store.specs.Entries.{empty};

    /// The same, where keys are hashed with that.
    pub fn with_hasher(
        alloc: Global,
        keys: usize,
        bytes: usize,
        keeps_cookies: bool,
        hasher: S,
    ) -> Result<Self, AllocError>
        requires some { 0 < keys }
        requires few { keys ≤ 65536 }
        ensures { IfOk result (λ store. store ≡ empty keys bytes keeps_cookies) }
    {
        let keys = NonZeroUsize::new(keys).unwrap();
        Ok(Store {
            keys: LruCache::with_hasher(alloc, keys, hasher)?,
            weight: 0,
            bytes,
            keeps_cookies,
            evicted: 0,
        })
    }
}

impl<S: BuildHasher> Store<S> {
    ghost use Rattle.std.specs.Prelude.{List, false, MatchResult, option_copied, IsOk, OnOk, OnErr, length, option_and_then, slice_get};
    ghost use Rattle.std.specs.Map.Iter.{ShowsInOrder, deref_pair};
    ghost use Rattle.hc_head.specs.declared.head.Target.{Target};
    ghost use Rattle.hc_update.specs.declared.stored.Stored.{Stored};
    ghost use Rattle.hc_store.specs.Entries.{HasDistinctKeys, knows, recent_variants, variants_of};
    ghost use Rattle.hc_store.specs.Choosing.{chosen, chosen_validated};
    ghost use Rattle.hc_store.specs.Changes.{after_choose};
    ghost use Rattle.hc_store.specs.Calls.{Freshens, Puts, has_vary, holding, invalidated};
    ghost use Rattle.hc_store.specs.Lends.{ends_so};
    ghost use Rattle.hc_store.specs.Views.{validation_seen};
    ghost use Rattle.std.specs.Borrow.{sem};
    ghost use Rattle.hc_fields.specs.Numbers.{end_of_moments};

    /// How many keys there are.
    pub fn len(&self) -> usize
        ensures len { result ≡ length self.now.entries }
        ensures within { IsWithin self.now }
        ensures distinct { HasDistinctKeys self.now.entries }
    {
        self.keys.len()
    }

    /// How many octets all that is held has: bodies, and the names and values of fields, those of requests too.
    pub fn octets(&self) -> usize
        ensures { result ≡ entries_weight self.now.entries }
    {
        self.weight
    }

    /// How many keys went since the store was made, since room or memory lacked.
    pub fn evicted(&self) -> u64 {
        self.evicted
    }

    /// The keys, the most recently used first, each with its variants in the order in which they were
    /// added.
    pub fn entries(&self) -> Iter<'_, Target, Variants>
        ensures rest { result ≡ self.now.entries }
        ensures runs { ShowsInOrder (deref_pair {K = Target} {X = List Stored}) }
    {
        self.keys.iter()
    }

    /// The place of the variant that is chosen; the key is the most recent then. Where memory was refused,
    /// nothing has changed.
    fn choose_place(
        &mut self,
        target: &Target,
        presented: &Fields,
    ) -> Result<PlaceChoice, AllocError>
        ensures known { IfOk result (λ choice. choice.is_known ≡ knows target.now self.old.entries) }
        ensures answer { IfOk result (λ choice. option_and_then (slice_get (recent_variants self.new.entries)) choice.place
            ≡ chosen presented.now (variants_of target.now self.old.entries)) }
        ensures ok { OnOk result (self.new ≡ holding (after_choose target.now self.old.entries) self.old) }
        ensures err { OnErr result (self.new ≡ self.old) }
        ensures no_vary { has_vary (variants_of target.now self.old.entries) ≡ false → IsOk result }
    {
        let alloc = *self.keys.allocator();
        let Some(variants) = self.keys.peek(target) else {
            return Ok(PlaceChoice {
                is_known: false,
                place: None,
            });
        };
        let place = chosen_place(alloc, variants.as_slice(), presented)?;
        self.keys.promote(target);
        Ok(PlaceChoice {
            is_known: true,
            place,
        })
    }

    /// The variant of the target that a request with those fields is answered from, and whether anything is
    /// stored of the target. The key is the most recent then, if it is there. Where memory was refused, nothing
    /// has changed; without a Vary line none is taken.
    pub fn choose(&mut self, target: &Target, presented: &Fields) -> Result<Choice<'_>, AllocError>
        ensures* leaves { sem 𝓛 (ends_so S.row S.Hasher.row S.BuildHasher S.Hasher.Hasher self.entry
            (λ n. MatchResult result (λ _. n ≡ holding (after_choose target.now self.old.entries) self.old) (λ _. n ≡ self.old))) }
        ensures known { IfOk result (λ choice. choice.is_known ≡ knows target.now self.old.entries) }
        ensures answer { IfOk result (λ choice. option_copied choice.chosen ≡ chosen presented.now (variants_of target.now self.old.entries)) }
        ensures no_vary { has_vary (variants_of target.now self.old.entries) ≡ false → IsOk result }
    {
        let found = self.choose_place(target, presented)?;
        Ok(Choice {
            is_known: found.is_known,
            chosen: lend_of_recent(&self.keys, found.place),
        })
    }

    /// The variant of the target that a request with those fields is answered from among those that the
    /// record at that position validated last. Nothing changes; without a Vary line no memory is taken.
    pub fn choose_validated(
        &self,
        target: &Target,
        presented: &Fields,
        position: u64,
    ) -> Result<Option<&Stored>, AllocError>
        ensures answer { IfOk result (λ answer. option_copied answer ≡ chosen_validated presented.now position (variants_of target.now self.now.entries)) }
        ensures no_vary { has_vary (variants_of target.now self.now.entries) ≡ false → IsOk result }
    {
        let alloc = *self.keys.allocator();
        let Some(variants) = self.keys.peek(target) else {
            return Ok(None);
        };
        let place = chosen_validated_place(alloc, variants.as_slice(), presented, position)?;
        Ok(lend(&self.keys, target, place))
    }

    /// Stores a response of the target, in place of the variants that select its request. The key is the
    /// most recent then; others go where there are too many or they are too heavy. Where the result isn't
    /// `Stored`, nothing has changed, and the response is dropped.
    pub fn put(&mut self, target: Target, stored: Stored) -> Put
        ensures puts { Puts target stored self.old result self.new }
        ensures within { IsWithin self.new }
    {
        if !may_hold(self.keeps_cookies, &stored) {
            return Put::SetsCookie;
        }
        if !is_small_enough(&stored, self.bytes) {
            return Put::TooLarge;
        }
        let wanted = keys_with(&self.keys, &target);
        match put_in(&mut self.keys, self.weight, self.bytes, target, stored) {
            Ok(weight) => {
                self.weight = weight;
                self.evicted = evicted_by(self.evicted, wanted, self.keys.len());
                Put::Stored
            }
            Err(_) => Put::NoMemory,
        }
    }

    /// Freshens the variants of the target that a 304 is about (RFC 9111 section 4.3.4). A variant that finds
    /// no memory, would no longer fit, or would set a cookie in a store that keeps no such responses, is
    /// removed. Where one was freshened, the key is the most recent then.
    pub fn freshen(&mut self, target: &Target, validation: NotModified<'_>)
        requires { validation.response_time < end_of_moments }
        ensures freshens { Freshens (validation_seen validation.entry) target.now self.old self.new }
        ensures within { IsWithin self.new }
    {
        let wanted = self.keys.len();
        self.weight = freshen_key(
            &mut self.keys,
            self.weight,
            self.bytes,
            target,
            validation,
            self.keeps_cookies,
        );
        self.evicted = evicted_by(self.evicted, wanted, self.keys.len());
    }

    /// Removes all variants of the target (RFC 9111 section 4.4).
    pub fn invalidate(&mut self, target: &Target)
        ensures invalidated { self.new ≡ invalidated target.now self.old }
        ensures within { IsWithin self.new }
    {
        self.weight = remove_key(&mut self.keys, self.weight, target);
    }
}

/// How many keys there are once the target is one of them, if none goes.
fn keys_with<S: BuildHasher>(keys: &LruCache<Target, Variants, S>, target: &Target) -> usize {
    let count = keys.len();
    if keys.contains(target) {
        count
    } else {
        count.saturating_add(1)
    }
}

/// How many keys went, where so many did before, and so many are left of those that there would be.
fn evicted_by(before: u64, wanted: usize, left: usize) -> u64 {
    before.saturating_add(wanted.saturating_sub(left) as u64)
}
