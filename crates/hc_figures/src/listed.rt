//! The first of the wrong replies, and what is shown of the requests that they answer.

ghost use Rattle.std.specs.Prelude.{◌≡◌, ◌≤◌, ◌++◌, ◌-◌, List, [], ◌∷◌, IfOk, OnOk, length, string_bytes, take, vec_len};
ghost use Rattle.hc_history.specs.declared.wrong.WrongReply.{WrongReply};
ghost use Rattle.hc_figures.specs.declared.listed.TheConstants.{MOST_LISTED};

use hc_history::{Reason, WrongReply};
use std::alloc::{AllocError, Global};

/// How many wrong replies are listed at most.
const MOST_LISTED: usize = 1_000;

/// A wrong reply that is listed.
pub struct ListedReply {
    /// Where it stands, and why it is wrong.
    pub wrong: WrongReply,
    /// What is shown of the request that it answers.
    pub request: ShownRequest,
}

impl Drop for ListedReply {
    fn drop(self) {
        let ListedReply { wrong: _, request } = self;
        drop(request);
    }
}

/// How many wrong replies there are, and the first of them.
pub struct ListedReplies {
    /// How many there are, or the greatest number.
    pub count: u64,
    /// The first of all.
    pub first: Option<WrongReply>,
    /// The first 1,000.
    pub listed: Vec<ListedReply>,
    ghost few: { vec_len listed ≤ MOST_LISTED },
}

impl Drop for ListedReplies {
    fn drop(self) {
        let ListedReplies {
            count: _,
            first: _,
            listed,
        } = self;
        drop(listed);
    }
}

impl ListedReplies {
    ghost use Rattle.hc_figures.specs.Listed.{AreListed, ListsNext};
    ghost use Rattle.hc_figures.specs.Wrongs.{wrongs_of};

    /// No wrong reply.
    pub fn new(alloc: Global) -> Self
        ensures listed { AreListed result [] }
        ensures none { result.listed.items ≡ [] }
    {
        ListedReplies {
            count: 0,
            first: None,
            listed: Vec::new(alloc),
        }
    }

    /// Takes in the next one, and what is shown of the request that it answers.
    pub fn note(&mut self, wrong: WrongReply, request: &ShownRequest) -> Result<(), AllocError>
        ensures listed { (wrongs : List WrongReply) → AreListed self.old wrongs → OnOk result (AreListed self.new (wrongs ++ wrong ∷ [])) }
        ensures next { OnOk result (ListsNext self.old.listed.items self.new.listed.items wrong request.now) }
    {
        Self::list(&mut self.listed, wrong, request)?;
        self.first = self.first.or(Some(wrong));
        self.count = self.count.saturating_add(1);
        Ok(())
    }

    /// How many of them aren't listed.
    pub fn unlisted(&self) -> u64
        ensures { result ≡ self.now.count - length self.now.listed.items }
    {
        self.count.saturating_sub(self.listed.len() as u64)
    }

    // Lists the next wrong reply, where there is room.
    fn list(
        listed: &mut Vec<ListedReply>,
        wrong: WrongReply,
        request: &ShownRequest,
    ) -> Result<(), AllocError>
        requires { vec_len listed.old ≤ MOST_LISTED }
        ensures front { (wrongs : List WrongReply) → wrongs_of listed.old.items ≡ take MOST_LISTED wrongs
            → OnOk result (wrongs_of listed.new.items ≡ take MOST_LISTED (wrongs ++ wrong ∷ [])) }
        ensures few { vec_len listed.new ≤ MOST_LISTED }
        ensures next { OnOk result (ListsNext listed.old.items listed.new.items wrong request.now) }
    {
        if listed.len() < MOST_LISTED {
            let request = request.copy()?;
            listed.push(ListedReply { wrong, request })?;
        }
        Ok(())
    }
}

/// What is shown of a request that a reply answers: nothing where none is open.
#[derive(Drop)]
pub struct ShownRequest {
    /// Its method.
    pub method: String,
    /// Its target.
    pub target: String,
}

impl ShownRequest {
    ghost use Rattle.hc_figures.specs.Requests.{ShowsAs, kind_text};

    /// The same again.
    pub fn copy(&self) -> Result<Self, AllocError>
        ensures { IfOk result (λ copy. ShowsAs self.now copy) }
    {
        Ok(ShownRequest {
            method: self.method.clone()?,
            target: self.target.clone()?,
        })
    }

    /// The kind of a reply to it that is wrong by that reason.
    pub fn kind(&self, alloc: Global, reason: Reason) -> Result<String, AllocError>
        ensures { IfOk result (λ kind. string_bytes kind ≡ kind_text reason (string_bytes self.now.method) (string_bytes self.now.target)) }
    {
        let name = reason.name();
        let method = self.method.as_str();
        let target = self.target.as_str();
        format!(in alloc; "{name} {method} {target}")
    }
}
