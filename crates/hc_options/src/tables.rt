//! The arguments and options of commands that judge.

use crate::rows::{Kind, Row, Takes};

/// The transcript of a command that reads one once.
pub const AUDITED: Row = Row {
    name: "FILE",
    kind: Kind::Argument,
    value: "",
    takes: Takes::AnyText,
    required: true,
    help: "The transcript, or - for standard input",
};

pub(crate) const SLACK: Row = Row {
    name: "slack",
    kind: Kind::Valued,
    value: "N",
    takes: Takes::Count,
    required: false,
    help: "The seconds by which an Age, a ttl, a lifetime and what permits staleness may be off: \
        a decimal from 0 to 2147483648, and 0 without the option",
};

pub(crate) const IGNORE: Row = Row {
    name: "ignore",
    kind: Kind::Valued,
    value: "NAME,..",
    takes: Takes::Names,
    required: false,
    help: "The names of fields that aren't compared, with commas between them",
};

pub(crate) const ERRORS_ONLY: Row = Row {
    name: "errors-only",
    kind: Kind::Flag,
    value: "",
    takes: Takes::AnyText,
    required: false,
    help: "A reply without a mark is wrong, but for those of status 400 and more",
};

pub(crate) const ALLOW: Row = Row {
    name: "allow",
    kind: Kind::Valued,
    value: "WORD,..",
    takes: Takes::AllowedWords,
    required: false,
    help: "What is allowed beside the strict rules, with commas between the words: added-fields, that a reply has \
        fields which the stored response lacks; joined-lines, that lines of a field are joined or parted; ranges, \
        that a reply is a part of what the origin answered; all stands alone for each of them",
};

pub(crate) const DEFAULT_TTL: Row = Row {
    name: "default-ttl",
    kind: Kind::Valued,
    value: "N",
    takes: Takes::Count,
    required: false,
    help: "The seconds for which a stored response is fresh that states no lifetime: a decimal from 0 to 2147483648",
};

pub(crate) const GRACE: Row = Row {
    name: "grace",
    kind: Kind::Valued,
    value: "N",
    takes: Takes::Count,
    required: false,
    help: "The seconds for which a stored response may be served stale, unless it forbids that: \
        a decimal from 0 to 2147483648",
};

pub(crate) const NORMALIZED: Row = Row {
    name: "normalized",
    kind: Kind::Valued,
    value: "NAME,..",
    takes: Takes::VaryNames,
    required: false,
    help: "The names of fields, with commas between them, that the cache normalizes: Vary by them is passed over",
};

pub(crate) const AGE_SLACK: Row = Row {
    name: "age-slack",
    kind: Kind::Valued,
    value: "N",
    takes: Takes::Count,
    required: false,
    help: "The seconds by which an Age may be off, where that is more than --slack: \
        a decimal from 0 to 2147483648, and 0 without the option",
};

pub(crate) const INFER_MARKS: Row = Row {
    name: "infer-marks",
    kind: Kind::Flag,
    value: "",
    takes: Takes::AnyText,
    required: false,
    help: "A reply without a mark, of a status under 400, counts as forwarded where a forward was made for it, and \
        else as a hit",
};

/// By which settings a command judges.
pub const JUDGING: [Row; 9] = [
    SLACK,
    IGNORE,
    ERRORS_ONLY,
    ALLOW,
    DEFAULT_TTL,
    GRACE,
    NORMALIZED,
    AGE_SLACK,
    INFER_MARKS,
];

pub(crate) const MIN_HITS: Row = Row {
    name: "min-hits",
    kind: Kind::Valued,
    value: "N",
    takes: Takes::Count,
    required: false,
    help: "The least number of hits: where nothing is wrong and there are fewer, the status is 4: \
        a decimal from 0 to 2147483648, and 0 without the option",
};

pub(crate) const MIN_JUDGED: Row = Row {
    name: "min-judged",
    kind: Kind::Valued,
    value: "N",
    takes: Takes::Count,
    required: false,
    help: "The least number of replies that are judged, hits and forwarded ones together: where nothing is wrong \
        and there are fewer, the status is 4: a decimal from 0 to 2147483648, and 0 without the option",
};

/// How many replies a command that judges all has to judge.
pub const COUNTING: [Row; 2] = [MIN_HITS, MIN_JUDGED];

/// Whether a command that judges says it as one JSON object.
pub const JSON: Row = Row {
    name: "json",
    kind: Kind::Flag,
    value: "",
    takes: Takes::AnyText,
    required: false,
    help: "One JSON object in place of text",
};
