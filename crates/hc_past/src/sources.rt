//! The records of responses that a reply may carry.

use crate::past::End;
use hc_fields::Fields;
use hc_history::ReplyClaim;
use hc_shown::{FieldOf, Teller};

/// Tells what a response of those fields says of its lifetime: its Cache-Control, or else its Expires.
pub(crate) fn tell_lifetime<T: Teller>(fields: &Fields, teller: &mut T) {
    let cache_control = FieldOf::new(b"cache-control", fields);
    if fields.contains(b"cache-control") {
        teller.value("cache-control", ", Cache-Control ", &cache_control);
    } else if fields.contains(b"expires") {
        teller.value("expires", ", Expires ", &FieldOf::new(b"expires", fields));
    } else {
        teller.words(", neither Cache-Control nor Expires");
    }
}

impl End {
    /// Tells when the response came, its status, and what it says of its lifetime and of its age.
    pub fn tell_source<T: Teller>(&self, claim: &ReplyClaim<'_>, teller: &mut T) {
        let Some(heads) = &self.heads else {
            return;
        };
        let fields = &heads.response.fields;
        teller.place(self.named);
        teller.some_record("forward", self.sent);
        if !teller.is_text() {
            teller.method("method", "", &self.method, "");
        }
        teller.flag("given", self.is_given(claim));
        teller.flag("dated", fields.contains(b"date"));
        teller.moment(self.named.moment);
        self.tell_status("status", "  ", teller);
        tell_lifetime(fields, teller);
        if fields.contains(b"age") {
            teller.value("age", ", Age ", &FieldOf::new(b"age", fields));
        } else {
            teller.some("age", None);
        }
    }

    /// Tells the status of the answer after a text, if there is one.
    pub fn tell_status<T: Teller>(&self, name: &'static str, before: &str, teller: &mut T) {
        if let Some(status) = self.status {
            teller.number(name, before, u64::from(status.as_u16()), "");
        }
    }

    /// Tells of which forward it is the answer, if that is known.
    pub fn say_sent<T: Teller>(&self, teller: &mut T) {
        if let Some(sent) = self.sent {
            teller.record(", the answer to ", sent);
        }
    }
}
