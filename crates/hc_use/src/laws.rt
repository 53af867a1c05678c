//! Laws of the definitions.

ghost use Rattle.std.specs.Prelude.{◌≡◌, ℕ, false, nat_le, Option, Some, None};
ghost use Rattle.hc_update.specs.declared.stored.Stored.{Stored};
ghost use Rattle.hc_history.specs.Claims.{Claim};
ghost use Rattle.hc_history.specs.Allowing.{use_is_allowed};
ghost use Rattle.hc_use.specs.declared.stale.Setting.TheVariants.{DefaultLifetime, Grace};
ghost use Rattle.hc_use.specs.declared.permits.StaleUse.{StaleUse};
ghost use Rattle.hc_use.specs.Stale.{setting_of};
ghost use Rattle.hc_use.specs.Permits.{DoesPermit, stale_use_of};
ghost use Rattle.hc_use.specs.Laws.{allowing, with_default_lifetime, with_grace};

/// A response that may not be used may be used with the setting that is told for it, where that has as many
/// seconds as are told, or more, and with no fewer.
pub fn least_setting_permits()
    ensures grace { (claim : Claim) (state : Stored) (least seconds : ℕ) → use_is_allowed claim state ≡ false
        → setting_of claim state ≡ Some (Grace least)
        → use_is_allowed (with_grace seconds claim) state ≡ nat_le least seconds }
    ensures lifetime { (claim : Claim) (state : Stored) (least seconds : ℕ) → use_is_allowed claim state ≡ false
        → setting_of claim state ≡ Some (DefaultLifetime least)
        → use_is_allowed (with_default_lifetime seconds claim) state ≡ nat_le least seconds }
{}

/// Where no setting is told for it, no default lifetime and no grace lets it be used, nor do both together.
pub fn no_setting_permits()
    ensures { (claim : Claim) (state : Stored) (default_lifetime grace : Option ℕ) → use_is_allowed claim state ≡ false
        → setting_of claim state ≡ None
        → use_is_allowed (allowing default_lifetime grace claim) state ≡ false }
{}

/// What is named as that by which a stale response may be given does permit it, in that audit.
pub fn named_permit_permits()
    ensures { (claim : Claim) (state : Stored) (stale_use : StaleUse) → stale_use_of claim state ≡ Some stale_use
        → DoesPermit claim state stale_use.permit }
{}
