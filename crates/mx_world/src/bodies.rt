// Reply bodies.
ghost use Rattle.std.specs.Prelude.{◌≡◌, ℕ, List, [], codes, option_map, IfOk};
ghost use Rattle.serde_json.specs.Data.{object, member, no_members};
ghost use Rattle.serde_json.specs.Find.{get};
ghost use Rattle.mx_canon.specs.Canonical.{canonical_text};
ghost use Rattle.mx_world.specs.declared.answers.Told.{Told};
ghost use Rattle.serde_json.specs.View.{view, members_view};
ghost use Rattle.mx_world.specs.Replies.{error_text, verdict_text, text_of, texts_of, last_told, body_of, waiting, close_reply};

use crate::answers::Told;
use crate::steps::StepReply;
use mx_canon::CanonError;
use mx_keeper::Reply;
use mx_receipt::Verdict;
use mx_room::Outcome;
use serde_json::{Map, Value};
use std::alloc::{AllocError, Global};

/// The reply of a transaction of whose events this was told: the canonical text of an object whose key `pdus` has the
/// text of each id, and of an id that is told twice the last one.
///
/// `AllocError` where no memory is left.
///
/// Source: the Matrix specification, Server-Server API, "Transactions".
pub fn reply_body(alloc: Global, told: &[Told]) -> Result<Reply, AllocError>
    ensures { IfOk result (λ reply. reply ≡ body_of told.now) }
{
    let mut members = Map::new(alloc);
    let texts = Value::Object(texts_for(alloc, told)?);
    members.insert(String::from_str(alloc, "pdus")?, texts)?;
    let value = Value::Object(members);
    match mx_canon::text(alloc, &value) {
        Ok(bytes) => Ok(Reply::from_utf8(bytes)),
        Err(CanonError::Memory) => Err(AllocError),
        Err(CanonError::NotCanonical(_)) => unreachable!(),
    }
}

// Each id's text; of an id that is told twice the last text stands.
fn texts_for(alloc: Global, told: &[Told]) -> Result<Map<String, Value>, AllocError>
    ensures { IfOk result (λ texts. object (members_view texts.entries) ≡ texts_of told.now) }
{
    let mut texts = Map::new(alloc);
    for one in told {
        let id = String::from_str(alloc, one.id.as_str())?;
        let text = processing_result(alloc, one.outcome)?;
        texts.insert(id, text)?;
    }
    Ok(texts)
}

/// What a transaction's reply says of an event with this outcome: an empty object where it is kept or known as accepted
/// or soft failed, else an object with the key `error`. With no outcome its room is not hosted.
///
/// Source: the Matrix specification, Server-Server API, "Transactions", "PDU Processing Result".
pub fn processing_result(alloc: Global, outcome: Option<Outcome>) -> Result<Value, AllocError>
    ensures { IfOk result (λ value. view value ≡ text_of outcome) }
{
    match outcome {
        Some(Outcome::Kept(verdict)) => verdict_result(alloc, verdict),
        Some(Outcome::Known(verdict)) => verdict_result(alloc, verdict),
        Some(Outcome::Refused(refusal)) => error_result(alloc, refusal.text()),
        None => error_result(alloc, "unknown room"),
    }
}

/// The text of an event in a transaction's reply is that of the last outcome told for its id, and there is none for an id
/// of which nothing was told. The reply that closes a transaction is the canonical text of these texts under `pdus`.
///
/// Source: the Matrix specification, Server-Server API, "Transactions".
pub fn last_answers_are_told()
    ensures texts { (told : List Told) (id : List ℕ) → get id (texts_of told) ≡ option_map text_of (last_told id told) }
    ensures body { (told : List Told) → close_reply (waiting [] told)
        ≡ StepReply.Closed (canonical_text (object (member (codes "pdus") (texts_of told) no_members))) }
{}

fn verdict_result(alloc: Global, verdict: Verdict) -> Result<Value, AllocError>
    ensures { IfOk result (λ value. view value ≡ verdict_text verdict) }
{
    match verdict {
        Verdict::Accepted | Verdict::SoftFailed(_) => Ok(Value::Object(Map::new(alloc))),
        Verdict::Rejected(rule) => {
            let mut error = String::from_str(alloc, "rejected: ")?;
            error.push_str(rule.label())?;
            error_result(alloc, &error)
        }
    }
}

fn error_result(alloc: Global, error: &str) -> Result<Value, AllocError>
    ensures { IfOk result (λ value. view value ≡ error_text error.now) }
{
    let mut members = Map::new(alloc);
    let error = String::from_str(alloc, error)?;
    members.insert(String::from_str(alloc, "error")?, Value::String(error))?;
    Ok(Value::Object(members))
}
