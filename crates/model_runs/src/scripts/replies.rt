//! The text of a reply.
use crate::fault::Fault;
use admin_line::put_answer;
use poa_base::{Call, Datum, Outcome, Reply, Verdict};
use poa_journal::put_verdict;
use text_words::{put_number, put_octets, put_signed, put_word};

/// The id of a request; an administrator's line has none.
pub fn request_id(call: Option<&Call>) -> u32 {
    match call {
        Some(Call::Request { head, .. } | Call::Locate { head, .. }) => head.id,
        Some(Call::Line { .. }) | None => 0,
    }
}

/// Adds the line of a reply: `answer CONN N TEXT` to an administrator's line, else `reply CONN ID` and its words.
pub fn put_reply(out: &mut Vec<u8>, conn: u32, id: u32, reply: &Reply) -> Result<(), Fault> {
    if let Reply::Answer { number, answer } = reply {
        out.extend_from_slice(b"answer")?;
        put_number(out, u64::from(conn))?;
        put_number(out, *number)?;
        put_answer(out, answer)?;
    } else {
        out.extend_from_slice(b"reply")?;
        put_number(out, u64::from(conn))?;
        put_number(out, u64::from(id))?;
        put_words(out, reply)?;
    }
    out.extend_from_slice(b"\n")?;
    Ok(())
}

/// Adds the words of a reply to a request or a locate.
fn put_words(out: &mut Vec<u8>, reply: &Reply) -> Result<(), Fault> {
    match reply {
        Reply::Outcome(outcome) => put_outcome(out, outcome),
        Reply::Forward { endpoint, key } => {
            put_verdict(out, &Verdict::Forward(endpoint.clone()?))?;
            put_octets(out, b"h:", key.as_slice())?;
            Ok(())
        }
        Reply::Addressing => Ok(put_word(out, b"addressing")?),
        Reply::Here => Ok(put_word(out, b"here")?),
        Reply::UnknownObject => Ok(put_word(out, b"unknown")?),
        Reply::Answer { .. } => Ok(()),
    }
}

/// Adds the words of how an operation ended.
fn put_outcome(out: &mut Vec<u8>, outcome: &Outcome) -> Result<(), Fault> {
    match outcome {
        Outcome::Value(None) => put_word(out, b"nothing")?,
        Outcome::Value(Some(datum)) => {
            put_word(out, b"value")?;
            put_datum(out, datum)?;
        }
        Outcome::User(id) => {
            put_word(out, b"user")?;
            put_word(out, id.as_slice())?;
        }
        Outcome::System(exception) => put_verdict(out, &Verdict::Refuse(*exception))?,
    }
    Ok(())
}

/// Adds a result.
fn put_datum(out: &mut Vec<u8>, datum: &Datum) -> Result<(), Fault> {
    match datum {
        Datum::Long(value) => put_signed(out, *value)?,
        Datum::Ulong(value) => put_number(out, u64::from(*value))?,
        Datum::Flag(value) => put_word(out, if *value { b"yes" } else { b"no" })?,
        Datum::Octets(bytes) => put_octets(out, b"o:", bytes.as_slice())?,
        Datum::Text(bytes) => put_octets(out, b"s:", bytes.as_slice())?,
    }
    Ok(())
}
