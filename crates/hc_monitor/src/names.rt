//! The families of numbers that are told. A counter only grows, and a gauge grows and falls.

use crate::families::Family;

pub(crate) const REPLIES: Family<'static> = Family {
    name: "hcache_replies_total",
    kind: "counter",
    help: "Replies that were given, by the mark of Cache-Status and the class of the status.",
};

pub(crate) const RECEIVED: Family<'static> = Family {
    name: "hcache_received_bytes_total",
    kind: "counter",
    help: "Bytes that came, by sender.",
};

pub(crate) const SENT: Family<'static> = Family {
    name: "hcache_sent_bytes_total",
    kind: "counter",
    help: "Bytes that were given out, by receiver.",
};

pub(crate) const FORWARDED: Family<'static> = Family {
    name: "hcache_forwards_total",
    kind: "counter",
    help: "Requests that went to the origin.",
};

pub(crate) const TURNED_AWAY: Family<'static> = Family {
    name: "hcache_turned_away_total",
    kind: "counter",
    help: "Clients for whom there was no place.",
};

pub(crate) const CLIENTS: Family<'static> = Family {
    name: "hcache_clients",
    kind: "gauge",
    help: "Connections of clients.",
};

pub(crate) const CLIENTS_LIMIT: Family<'static> = Family {
    name: "hcache_clients_limit",
    kind: "gauge",
    help: "How many there may be, guests among them.",
};

pub(crate) const GUESTS: Family<'static> = Family {
    name: "hcache_guests",
    kind: "gauge",
    help: "Connections on which nothing was sent yet.",
};

pub(crate) const FORWARDS: Family<'static> = Family {
    name: "hcache_forwards",
    kind: "gauge",
    help: "Forwards that are open.",
};

pub(crate) const ORIGIN_LIMIT: Family<'static> = Family {
    name: "hcache_origin_links_limit",
    kind: "gauge",
    help: "How many links to the origin there may be.",
};

pub(crate) const AWAITING: Family<'static> = Family {
    name: "hcache_clients_awaiting",
    kind: "gauge",
    help: "Clients who await a reply.",
};

pub(crate) const QUEUED: Family<'static> = Family {
    name: "hcache_forwards_queued",
    kind: "gauge",
    help: "Forwards that wait for a link to the origin.",
};

pub(crate) const WAITERS: Family<'static> = Family {
    name: "hcache_waiters",
    kind: "gauge",
    help: "Requests that wait for the forward of another one.",
};

pub(crate) const TARGETS: Family<'static> = Family {
    name: "hcache_stored_targets",
    kind: "gauge",
    help: "Targets of which responses are stored.",
};

pub(crate) const TARGETS_LIMIT: Family<'static> = Family {
    name: "hcache_stored_targets_limit",
    kind: "gauge",
    help: "How many there may be.",
};

pub(crate) const STORED: Family<'static> = Family {
    name: "hcache_stored_bytes",
    kind: "gauge",
    help: "Bytes of responses that are stored.",
};

pub(crate) const STORED_LIMIT: Family<'static> = Family {
    name: "hcache_stored_bytes_limit",
    kind: "gauge",
    help: "How many there may be.",
};

pub(crate) const EVICTIONS: Family<'static> = Family {
    name: "hcache_evictions_total",
    kind: "counter",
    help: "Targets that were dropped from the store, since room or memory lacked.",
};

pub(crate) const HELD: Family<'static> = Family {
    name: "hcache_held_bytes",
    kind: "gauge",
    help: "Bytes that are held beside the store.",
};

pub(crate) const HELD_LIMIT: Family<'static> = Family {
    name: "hcache_held_bytes_limit",
    kind: "gauge",
    help: "How many there may be.",
};

pub(crate) const REFUSED: Family<'static> = Family {
    name: "hcache_refused_total",
    kind: "counter",
    help: "Requests that were refused, by why.",
};

pub(crate) const FAILED: Family<'static> = Family {
    name: "hcache_failed_responses_total",
    kind: "counter",
    help: "Responses that failed or didn't come, by why.",
};

pub(crate) const CUT_OFF: Family<'static> = Family {
    name: "hcache_cut_off_total",
    kind: "counter",
    help: "Clients who were cut off, by why.",
};

pub(crate) const LOST_LINES: Family<'static> = Family {
    name: "hcache_access_log_lost_lines_total",
    kind: "counter",
    help: "Lines of the access log that were dropped.",
};

pub(crate) const RECORDING: Family<'static> = Family {
    name: "hcache_recording",
    kind: "gauge",
    help: "Whether a recording goes on.",
};

pub(crate) const ENDED: Family<'static> = Family {
    name: "hcache_recording_ended_total",
    kind: "counter",
    help: "Recordings that ended before serving did, at their limit or by a failed write.",
};

pub(crate) const DRAINING: Family<'static> = Family {
    name: "hcache_draining",
    kind: "gauge",
    help: "Whether it was asked to stop.",
};

pub(crate) const POLLS: Family<'static> = Family {
    name: "hcache_failed_polls_total",
    kind: "counter",
    help: "How often the system couldn't say what is ready.",
};

pub(crate) const TURNS: Family<'static> = Family {
    name: "hcache_longest_turn_microseconds",
    kind: "gauge",
    help: "The longest time in which nothing was waited for.",
};
