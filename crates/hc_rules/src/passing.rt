//! Heads that are passed on: they are writable in a transcript.

ghost use Rattle.std.specs.Prelude.{◌≡◌, ◌+◌, ◌<◌, ◌≤◌, ℕ, Bool, true, false, List, ◌++◌, length, filter, codes, bytes_eq, Some};
ghost use Rattle.std.specs.List.{list_all};
ghost use Rattle.httparse.specs.Grammar.{is_token};
ghost use Rattle.hc_fields.specs.declared.fields.Field.{Field};
ghost use Rattle.hc_fields.specs.Values.{has_name, without};
ghost use Rattle.hc_head.specs.declared.head.RequestHead.{RequestHead};
ghost use Rattle.hc_head.specs.declared.head.ResponseHead.{ResponseHead};
ghost use Rattle.hc_head.specs.declared.head.Room.{Room};
ghost use Rattle.hc_head.specs.declared.head.Version.{Version};
ghost use Rattle.hc_head.specs.Heads.{BeginsRequestHead, request_field_count, BeginsResponseHead, response_field_count};
ghost use Rattle.hc_rules.specs.Passing.{AreKeptLines, AreOwnLines, IsReceivedRequest, most_growth};
ghost use Rattle.hc_head.specs.Plain.{is_plain_field, IsPlainTarget, IsPlainRequest, IsPlainResponse};
ghost use Rattle.hc_head.specs.Reading.{IsWholeHead};
ghost use Rattle.hc_head.specs.Texts.{request_head_text, response_head_text};
ghost use Rattle.hc_head.specs.Weights.{fields_weight};
ghost use Rattle.hc_head.specs.Writable.{has_framing, longest_body, IsWritableRequest, IsWritableResponse};

use hc_head::Room;

/// A head of plain parts that doesn't frame a body is writable in a room that it fits into with the
/// length of the longest body.
pub fn plain_head_is_writable()
    ensures request { (head : RequestHead) (room : Room) → IsPlainRequest head → has_framing head.fields ≡ false
        → length (request_head_text head (Some longest_body)) ≤ room.octets → length head.fields + 1 ≤ room.fields
        → IsWritableRequest head room }
    ensures response { (head : ResponseHead) (room : Room) → IsPlainResponse head → has_framing head.fields ≡ false
        → length (response_head_text head (Some longest_body)) ≤ room.octets → length head.fields + 1 ≤ room.fields
        → IsWritableResponse head room }
    // Beside the method, the target and the fields, the text with that length has 40 octets, or 43 in a response.
    ensures request_by_weight { (head : RequestHead) (room : Room) → IsPlainRequest head → has_framing head.fields ≡ false
        → length head.method + length head.target + fields_weight head.fields + 40 ≤ room.octets
        → length head.fields + 1 ≤ room.fields → IsWritableRequest head room }
    ensures response_by_weight { (head : ResponseHead) (room : Room) → IsPlainResponse head → has_framing head.fields ≡ false
        → fields_weight head.fields + 43 ≤ room.octets → length head.fields + 1 ≤ room.fields
        → IsWritableResponse head room }
{}

/// Lines that don't frame a body stay so, whatever lines are taken away or put behind them.
pub fn no_framing_stays()
    ensures fewer { (test : Field → Bool) (fields : List Field) → has_framing fields ≡ false
        → has_framing (filter test fields) ≡ false }
    ensures both { (front back : List Field) → has_framing front ≡ false → has_framing back ≡ false
        → has_framing (front ++ back) ≡ false }
    ensures taken_away { (fields : List Field)
        → has_framing (without (codes "transfer-encoding") (without (codes "content-length") fields)) ≡ false }
{}

/// No line has a name once the lines of that name are taken away, nor once others are.
pub fn no_name_stays()
    ensures fewer { (name : List ℕ) (test : Field → Bool) (fields : List Field) → has_name name fields ≡ false
        → has_name name (filter test fields) ≡ false }
    ensures both { (name : List ℕ) (front back : List Field) → has_name name front ≡ false → has_name name back ≡ false
        → has_name name (front ++ back) ≡ false }
    ensures taken_away { (name : List ℕ) (fields : List Field) → has_name name (without name fields) ≡ false }
    // So it is whatever else is taken away with them.
    ensures refused { (name : List ℕ) (test : Field → Bool) (fields : List Field)
        → ((f : Field) → bytes_eq f.name name ≡ true → test f ≡ false) → has_name name (filter test fields) ≡ false }
{}

/// Heads that were read in the room for connections, whatever lines are then taken away.
pub fn received_heads()
    ensures request { (octets : List ℕ) (head : RequestHead) (len : ℕ)
        → IsWholeHead BeginsRequestHead request_field_count octets Room.RECEIVED head len → IsReceivedRequest head }
    ensures response { (octets : List ℕ) (head : ResponseHead) (len : ℕ)
        → IsWholeHead BeginsResponseHead response_field_count octets Room.RECEIVED head len
        → IsPlainResponse head × AreKeptLines head.fields }
    ensures fewer { (test : Field → Bool) (head : RequestHead) → IsReceivedRequest head
        → IsReceivedRequest (record {
          method = head.method;
          target = head.target;
          version = head.version;
          fields = filter test head.fields;
        }) }
    // As the head of a message is, without the lines that frame its body.
    ensures without_framing { (head : RequestHead) → IsReceivedRequest head
        → IsReceivedRequest (record {
          method = head.method;
          target = head.target;
          version = head.version;
          fields = without (codes "transfer-encoding") (without (codes "content-length") head.fields);
        }) }
    ensures lines { (head : RequestHead) → IsReceivedRequest head → AreKeptLines head.fields }
{}

/// Lines that are kept, once lines are taken away; and those of a stored response that is small enough.
pub fn kept_lines()
    ensures fewer { (test : Field → Bool) (fields : List Field) → AreKeptLines fields → AreKeptLines (filter test fields) }
    ensures stored { (fields : List Field) → list_all is_plain_field fields ≡ true → length fields ≤ 100
        → fields_weight fields ≤ 65536 → AreKeptLines fields }
{}

/// A request that was received is writable in a transcript once it is passed on: by any method and to
/// any target that are hardly longer, with some of its lines, and lines of the cache before and behind them.
pub fn passed_request_is_writable()
    ensures { (received : RequestHead) (method target : List ℕ) (version : Version) (test : Field → Bool)
        (before behind : List Field) → IsReceivedRequest received → is_token method ≡ true → IsPlainTarget target
        → length method + length target ≤ length received.method + length received.target + most_growth
        → has_framing (filter test received.fields) ≡ false → AreOwnLines (before ++ behind)
        → IsWritableRequest (record {
          method = method;
          target = target;
          version = version;
          fields = before ++ filter test received.fields ++ behind;
        }) Room.RECORDED }
{}

/// A response of lines that are kept is writable in a transcript, with lines of the cache before and
/// behind them.
pub fn passed_response_is_writable()
    ensures { (status : ℕ) (version : Version) (kept before behind : List Field) → 100 ≤ status → status < 1000
        → AreKeptLines kept → has_framing kept ≡ false → AreOwnLines (before ++ behind)
        → IsWritableResponse (record {
          status = status;
          version = version;
          fields = before ++ kept ++ behind;
        }) Room.RECORDED }
{}
