// Lines of a log that name a transaction and nothing else, as most do.
ghost use Rattle.std.specs.Prelude.{◌≡◌, IfOk, IfSome, option_map};
ghost use Rattle.mx_pdu.specs.declared.offering.Offered.{Offered};
ghost use Rattle.mx_redact.specs.Fields.{Event};
ghost use Rattle.mx_log.specs.Lines as definition;
ghost use Rattle.mx_log.specs.LinesShown.{line_shown};
ghost use Rattle.mx_log.specs.TextMembers.{IsTextLine};

use crate::lines::Line;
use crate::lines::keys::{TRANSACTION_KEYS, key_from};
use crate::lines::members::members_in;
use json::Scratch;
use mx_world::Step;
use std::alloc::{AllocError, Global};

/// The texts of a line that names a transaction and nothing else.
#[derive(Clone, Copy)]
pub(crate) struct LineTexts<'l> {
    pub step: &'l str,
    pub origin: &'l str,
    pub txn: &'l str,
}

/// What a line asks for that goes on with a transaction, read without a JSON value of it; none for another line, and
/// where no memory is left for the scratch.
///
/// `AllocError` where no memory is left for the transaction's key.
#[tactic(auto, unfolding(crate::specs::Lines::read_line))]
pub(crate) fn text_line(
    alloc: Global,
    scratch: &mut Scratch,
    line: &[u8],
) -> Result<Option<Line>, AllocError>
    ensures { IfOk result (λ found. IfSome found (λ read.
        (offer : Event → Offered) → line_shown read ≡ definition.read_line offer line.now)) }
{
    let Some(texts) = texts_in(scratch, line) else {
        return Ok(None);
    };
    match texts.step {
        "next" => {
            let read = next_by(alloc, texts.origin, texts.txn)?;
            Ok(Some(read))
        }
        "close" => {
            let read = close_by(alloc, texts.origin, texts.txn)?;
            Ok(Some(read))
        }
        _ => Ok(None),
    }
}

fn next_by(alloc: Global, origin: &str, txn: &str) -> Result<Line, AllocError>
    ensures { IfOk result (λ line. line_shown line
        ≡ definition.or_bad (option_map definition.next_of (definition.key_from origin.now txn.now))) }
{
    match key_from(alloc, origin, txn)? {
        Some(key) => Ok(Line::Step(Step::Next(key))),
        None => Ok(Line::Bad),
    }
}

fn close_by(alloc: Global, origin: &str, txn: &str) -> Result<Line, AllocError>
    ensures { IfOk result (λ line. line_shown line
        ≡ definition.or_bad (option_map definition.close_of (definition.key_from origin.now txn.now))) }
{
    match key_from(alloc, origin, txn)? {
        Some(key) => Ok(Line::Step(Step::Close(key))),
        None => Ok(Line::Bad),
    }
}

// The texts of a line of these three keys alone, whose values are texts.
fn texts_in<'l>(scratch: &'l mut Scratch, line: &'l [u8]) -> Option<LineTexts<'l>>
    ensures { IfSome result (IsTextLine line.now) }
{
    let members = members_in(scratch, line)?;
    if !members.has_only(&TRANSACTION_KEYS) {
        return None;
    }
    let step = members.text_at("step")?;
    let origin = members.text_at("origin")?;
    let txn = members.text_at("txn")?;
    Some(LineTexts { step, origin, txn })
}
