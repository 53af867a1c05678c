//! What the wrong replies would be with other settings, each of them judged once more.

ghost use Rattle.std.specs.Prelude.{◌≤◌, ◌+◌, length};
ghost use Rattle.hc_report.specs.declared.tries.TheConstants.{MOST_NAMES};

use hc_audit::JudgedReply;
use hc_gaps::{Change, Differences};
use hc_history::{Candidate, Finding, Reason, Settings};
use hc_index::Index;
use hc_past::Wrong;
use hc_shown::{Page, Teller};
use hc_use::{Rule, Setting, rule_behind};
use std::alloc::{AllocError, Global};

/// A wrong reply that may carry those responses.
#[derive(Clone, Copy)]
pub(crate) struct WrongCase<'a> {
    pub(crate) reason: Reason,
    /// How far the responses get that it may carry, the furthest first. None where the reason asks for none.
    pub(crate) candidates: &'a [Candidate],
    /// Whether it asks for a part of one of these.
    pub(crate) asks_part: bool,
}

impl WrongCase<'_> {
    // Whether one of the responses breaks one of those rules.
    fn breaks(&self, rules: &[Rule]) -> bool {
        for candidate in self.candidates {
            match rule_behind(candidate.passed) {
                Some(rule) if rules.contains(&rule) => return true,
                _ => {}
            }
        }
        false
    }

    // Whether joined lines may make it right: not where each field that differs is in one of both alone.
    fn may_be_joined(&self, wrong: &Wrong<'_>) -> bool {
        if 1 < self.candidates.len() {
            return true;
        }
        match wrong.differences() {
            Some(found) => found.more != 0 || found.has(Change::Changed),
            None => true,
        }
    }
}

// What is tried beside so much slack.
fn settings_beside(slack: u32) -> [Setting; 14] {
    [
        Setting::Slack(u64::from(slack) + 1),
        Setting::Slack(u64::from(slack) + 5),
        Setting::Unmarked,
        Setting::AddedFields,
        Setting::JoinedLines,
        Setting::Ranges,
        Setting::All,
        Setting::Grace(10),
        Setting::Grace(60),
        Setting::AgeSlack(1),
        Setting::AgeSlack(5),
        Setting::DefaultLifetime(60),
        Setting::DefaultLifetime(86_400),
        Setting::InferredMarks,
    ]
}

// Whether that setting may make that reply right, so that it is tried.
fn serves(setting: Setting, case: &WrongCase<'_>, wrong: &Wrong<'_>) -> bool {
    match setting {
        Setting::Slack(_) => case.breaks(&[Rule::Lifetime, Rule::Use, Rule::Age, Rule::Ttl]),
        Setting::Unmarked | Setting::InferredMarks => case.reason == Reason::Unmarked,
        Setting::AddedFields => case.breaks(&[Rule::Fields]),
        Setting::JoinedLines => case.breaks(&[Rule::Fields]) && case.may_be_joined(wrong),
        Setting::Ranges => case.asks_part,
        Setting::All => case.asks_part || case.breaks(&[Rule::Fields]),
        Setting::Grace(_) => case.breaks(&[Rule::Lifetime, Rule::Use]),
        Setting::AgeSlack(_) => case.breaks(&[Rule::Age]),
        Setting::DefaultLifetime(_) => case.breaks(&[Rule::Lifetime, Rule::Use, Rule::Ttl]),
    }
}

// Whether a setting lets pass what that does, if it is one, so that what is right with that is right with it, too.
fn lets_pass(setting: Setting, less: Option<Setting>) -> bool {
    let Some(less) = less else {
        return false;
    };
    match (setting, less) {
        (Setting::All, Setting::AddedFields | Setting::JoinedLines | Setting::Ranges) => true,
        (Setting::Grace(more), Setting::Grace(less))
        | (Setting::AgeSlack(more), Setting::AgeSlack(less))
        | (Setting::DefaultLifetime(more), Setting::DefaultLifetime(less)) => less <= more,
        _ => false,
    }
}

// The words by which a setting is asked for.
fn options(alloc: Global, setting: Setting) -> Page {
    let (option, seconds) = setting.named();
    let mut page = Page::new(alloc);
    page.words(option);
    if let Some(seconds) = seconds {
        page.count(" ", seconds, "");
    }
    page
}

// How many replies are wrong where something more is let pass.
#[derive(Drop)]
struct FixedTry {
    setting: Setting,
    settings: Settings,
    wrong: u64,
}

// How many names are ignored besides at most.
const MOST_NAMES: usize = 20;

// How many replies are wrong where more fields are ignored that they alone have. Names are added where they help, so the
// replies before were judged with fewer of them.
#[derive(Drop)]
struct IgnoringTry {
    alloc: Global,
    // How many names the audit ignores.
    given: usize,
    // What the audit lets pass, with names more that are ignored.
    settings: Settings,
    // How many replies are wrong still, at most.
    wrong: u64,
    ghost few: { length settings.ignored ≤ given + MOST_NAMES },
}

impl IgnoringTry {
    // Whether a wrong reply is right with the names so far, or with those in which it differs, too, which are kept then.
    fn makes_right<I: Index>(
        &mut self,
        judged: &JudgedReply<'_, I>,
        wrong: &Wrong<'_>,
        may_carry_others: bool,
    ) -> Result<bool, AllocError> {
        let Some(added) = added_by(wrong) else {
            return Ok(false);
        };
        let settings = ignoring(self.alloc, &self.settings, added)?;
        let before = self.settings.ignored.names().len();
        let after = settings.ignored.names().len();
        let may_serve = self.given < before && (may_carry_others || after == before);
        if may_serve && judged.found_with(&self.settings)? == Finding::Right {
            return Ok(true);
        }
        let more = after.saturating_sub(self.given);
        if after == before || MOST_NAMES < more || judged.found_with(&settings)? != Finding::Right {
            return Ok(false);
        }
        self.settings = settings;
        Ok(true)
    }

    // The words by which it is asked for.
    fn options(&self) -> Page {
        let mut page = Page::new(self.alloc);
        let mut is_first = true;
        for name in self.settings.ignored.names() {
            page.separator(is_first, "--ignore ", ",");
            page.said_octets("", name.as_slice(), "");
            is_first = false;
        }
        page
    }
}

// The settings, by which the names of those are ignored, too.
fn ignoring(
    alloc: Global,
    settings: &Settings,
    differences: &Differences,
) -> Result<Settings, AllocError> {
    let mut settings = settings.copy(alloc)?;
    for gap in differences.listed.iter() {
        if !settings.ignored.contains(gap.name.as_slice()) {
            settings.ignored.push(gap.name.copy(alloc)?)?;
        }
    }
    Ok(settings)
}

// The fields in which a reply differs from the response that is named, if that is what is wrong, and only added ones
// are among them.
fn added_by<'a>(wrong: &'a Wrong<'_>) -> Option<&'a Differences> {
    let found = wrong.nearest.as_ref()?.shortfall.as_ref()?.differences()?;
    if found.more != 0 || found.has(Change::Dropped) || found.has(Change::Changed) {
        return None;
    }
    Some(found)
}

/// A try that makes fewer replies wrong.
pub struct Helpful {
    /// The options.
    pub options: String,
    /// How many are wrong then.
    pub wrong: u64,
    /// Whether so many replies are wrong still; else it is how many there are at most.
    pub is_exact: bool,
}

impl Drop for Helpful {
    fn drop(self) {
        let Helpful {
            options,
            wrong: _,
            is_exact: _,
        } = self;
        drop(options);
    }
}

/// Other settings that wrong replies are judged by: more fields that are ignored, and what else the audit doesn't let pass.
#[derive(Drop)]
pub(crate) struct Tries {
    ignoring: IgnoringTry,
    fixed: Vec<FixedTry>,
}

impl Tries {
    /// What is tried beside those settings.
    pub(crate) fn new(alloc: Global, given: Settings) -> Result<Self, AllocError> {
        let mut fixed = Vec::new(alloc);
        for setting in settings_beside(given.slack) {
            if setting.is_more(&given) {
                let mut settings = given.copy(alloc)?;
                setting.allow(&mut settings);
                fixed.push(FixedTry {
                    setting,
                    settings,
                    wrong: 0,
                })?;
            }
        }
        Ok(Tries {
            ignoring: IgnoringTry {
                alloc,
                given: given.ignored.names().len(),
                settings: given,
                wrong: 0,
            },
            fixed,
        })
    }

    /// Judges a wrong reply once more by each that may help.
    pub(crate) fn judge<I: Index>(
        &mut self,
        judged: &JudgedReply<'_, I>,
        case: WrongCase<'_>,
        wrong: &Wrong<'_>,
    ) -> Result<(), AllocError> {
        let may_carry_others = 1 < case.candidates.len()
            || matches!(case.reason, Reason::NotForwarded | Reason::NotCollapsible);
        if !self.ignoring.makes_right(judged, wrong, may_carry_others)? {
            self.ignoring.wrong = self.ignoring.wrong.saturating_add(1);
        }
        let mut right = None;
        for fixed in &mut self.fixed {
            let setting = fixed.setting;
            if lets_pass(setting, right)
                || serves(setting, &case, wrong)
                    && judged.found_with(&fixed.settings)? == Finding::Right
            {
                right = Some(setting);
            } else {
                fixed.wrong = fixed.wrong.saturating_add(1);
            }
        }
        Ok(())
    }

    /// Those that make fewer replies wrong than that.
    pub(crate) fn helpful(&self, wrong: u64) -> Result<Vec<Helpful>, AllocError> {
        let mut helpful = Vec::new(self.ignoring.alloc);
        if self.ignoring.wrong < wrong {
            helpful.push(Helpful {
                options: self.ignoring.options().into_text()?,
                wrong: self.ignoring.wrong,
                is_exact: false,
            })?;
        }
        for fixed in self.fixed.iter() {
            if fixed.wrong < wrong {
                helpful.push(Helpful {
                    options: options(self.ignoring.alloc, fixed.setting).into_text()?,
                    wrong: fixed.wrong,
                    is_exact: true,
                })?;
            }
        }
        Ok(helpful)
    }
}
