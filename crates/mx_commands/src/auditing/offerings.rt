// What became of the events that the lines of a log offer to one room.
mod malformed;
mod offerers;
mod open_transactions;
mod refused;

use crate::auditing::offerings::malformed::{
    has_no_more, hosting_value, malformed_among, values_in,
};
use crate::auditing::offerings::offerers::Offerer;
use crate::auditing::offerings::open_transactions::OpenTransactions;
use crate::auditing::offerings::refused::{cause_of_host, cause_of_refusal};
use json::Scratch;
use mx_ident::{RoomId, ServerName};
use mx_lines::{MalformedEvent, RefusedCause, RefusedEvent};
use mx_log::{LineForm, LogWatcher};
use mx_pdu::{Offered, Pdu};
use mx_room::{JoinReply, Outcome};
use mx_shard::Answer;
use mx_world::{Step, StepReply, Told, TransactionKey};
pub(crate) use refused::NotKept;
use serde_json::Value;
use std::alloc::{AllocError, Global};

/// What the lines of a log were beside the events that were kept.
#[derive(Clone, Copy, Debug, Default)]
pub(crate) struct LineCounts {
    /// Lines that have no form.
    pub bad_lines: usize,
    /// Requests of other servers.
    pub requests: usize,
    /// Requests that ask for no step, since something is wrong with them.
    pub refused_requests: usize,
    /// Transactions that were answered before, or are open already.
    pub repeated_transactions: usize,
    /// Events that came again once they were kept.
    pub known: usize,
}

/// What became of the events that the lines of a log offered to a room, but for those that were kept.
///
/// It is told of each line and each step. Where no memory is left for what it has to keep, it keeps nothing more and says so.
#[derive(Drop)]
pub(crate) struct Offerings {
    alloc: Global,
    room: RoomId,
    scratch: Scratch,
    line: Vec<u8>,
    open: OpenTransactions,
    // How many events the room has.
    kept: usize,
    asked_no_step: bool,
    lacks_memory: bool,
    pub(crate) counts: LineCounts,
    pub(crate) not_kept: Vec<NotKept>,
}

impl LogWatcher for Offerings {
    fn see_line(&mut self, text: &[u8], form: LineForm) {
        let outcome = self.note_line(text, form);
        self.note_memory(outcome);
    }

    fn see_step(&mut self, step: &Step, reply: &StepReply) {
        self.asked_no_step = false;
        let outcome = self.note_step(step, reply);
        self.note_memory(outcome);
    }
}

impl Offerings {
    /// Nothing was offered to this room yet.
    pub(crate) fn new(alloc: Global, room: RoomId) -> Offerings {
        Offerings {
            alloc,
            room,
            scratch: Scratch::new(alloc),
            line: Vec::new(alloc),
            open: OpenTransactions::new(alloc),
            kept: 0,
            asked_no_step: false,
            lacks_memory: false,
            counts: LineCounts::default(),
            not_kept: Vec::new(alloc),
        }
    }

    /// What was not kept, and what the lines were, once the log has ended. `AllocError` where memory lacked.
    pub(crate) fn finish(self) -> Result<(Vec<NotKept>, LineCounts), AllocError> {
        if self.lacks_memory {
            return Err(AllocError);
        }
        let Offerings {
            not_kept,
            mut counts,
            asked_no_step,
            ..
        } = self;
        counts.refused_requests = counts
            .refused_requests
            .saturating_add(asked_no_step as usize);
        Ok((not_kept, counts))
    }

    fn note_memory(&mut self, outcome: Result<(), AllocError>) {
        self.lacks_memory = self.lacks_memory || outcome.is_err();
    }

    // A line begins. Its text is kept until the next one, for the values in it that are no events.
    fn note_line(&mut self, text: &[u8], form: LineForm) -> Result<(), AllocError> {
        self.end_request();
        self.line.clear();
        self.line.extend_from_slice(text)?;
        match form {
            LineForm::Bad => self.counts.bad_lines = self.counts.bad_lines.saturating_add(1),
            LineForm::MalformedHost => self.note_malformed_host()?,
            LineForm::Request => {
                self.counts.requests = self.counts.requests.saturating_add(1);
                self.asked_no_step = true;
            }
            LineForm::Step => {}
        }
        Ok(())
    }

    // The line before has ended: a request that has asked for no step was refused.
    fn end_request(&mut self) {
        if self.asked_no_step {
            self.counts.refused_requests = self.counts.refused_requests.saturating_add(1);
        }
        self.asked_no_step = false;
    }

    fn note_malformed_host(&mut self) -> Result<(), AllocError> {
        let Some(value) = hosting_value(self.alloc, &mut self.scratch, &self.line)? else {
            return Ok(());
        };
        let values = vec![in self.alloc; value]?;
        self.add_malformed(Offerer::nobody(), &values)
    }

    fn note_step(&mut self, step: &Step, reply: &StepReply) -> Result<(), AllocError> {
        match step {
            Step::Host(offered) => self.note_host(offered, reply),
            Step::Open(key, events) => self.note_open(key, events, reply),
            Step::Next(key) => self.note_next(key, reply),
            Step::Close(key) => {
                self.note_close(key, reply);
                Ok(())
            }
            Step::Join { origin, event } => self.note_join(origin, event, reply),
            Step::Ask { .. } => Ok(()),
        }
    }

    fn note_host(&mut self, offered: &Offered, reply: &StepReply) -> Result<(), AllocError> {
        match reply {
            StepReply::OfRoom(Answer::Hosted(_)) => {
                self.keep(&offered.pdu);
                Ok(())
            }
            StepReply::OfRoom(Answer::AlreadyHosted(id)) if *id == offered.id => {
                self.know(&offered.pdu);
                Ok(())
            }
            StepReply::OfRoom(Answer::AlreadyHosted(_)) => {
                self.refuse(Offerer::nobody(), &offered.pdu, RefusedCause::SecondCreate)
            }
            StepReply::OfRoom(Answer::NotHost(why)) => {
                self.refuse(Offerer::nobody(), &offered.pdu, cause_of_host(*why))
            }
            _ => Ok(()),
        }
    }

    fn note_open(
        &mut self,
        key: &TransactionKey,
        events: &[Offered],
        reply: &StepReply,
    ) -> Result<(), AllocError> {
        if !matches!(reply, StepReply::Opened(_)) {
            let repeated = self.counts.repeated_transactions;
            self.counts.repeated_transactions = repeated.saturating_add(1);
            return Ok(());
        }
        self.open.open(self.alloc, key, events)?;
        if has_no_more(&self.line, key, events) {
            return Ok(());
        }
        match values_in(self.alloc, &mut self.scratch, &self.line)? {
            Some(values) if values.len() != events.len() => {
                self.add_malformed(Offerer::sending(key), &values)
            }
            _ => Ok(()),
        }
    }

    fn note_next(&mut self, key: &TransactionKey, reply: &StepReply) -> Result<(), AllocError> {
        let StepReply::OfEvent(Told { outcome, .. }) = reply else {
            return Ok(());
        };
        let Some(event) = self.open.next(key)? else {
            return Ok(());
        };
        self.note_outcome(Offerer::sending(key), &event, *outcome)
    }

    fn note_close(&mut self, key: &TransactionKey, reply: &StepReply) {
        if matches!(reply, StepReply::Closed(_)) {
            self.open.close(key);
        }
    }

    fn note_join(
        &mut self,
        origin: &ServerName,
        event: &Offered,
        reply: &StepReply,
    ) -> Result<(), AllocError> {
        let offerer = Offerer::joining(origin);
        match reply {
            StepReply::OfRoom(Answer::ToJoined(JoinReply::Offered { outcome, .. })) => {
                self.note_outcome(offerer, &event.pdu, Some(*outcome))
            }
            StepReply::OfRoom(Answer::ToJoined(JoinReply::NotOffered)) => {
                self.refuse(offerer, &event.pdu, RefusedCause::UserOfAnotherServer)
            }
            _ => self.note_outcome(offerer, &event.pdu, None),
        }
    }

    // What became of an event; nothing where its room is not hosted.
    fn note_outcome(
        &mut self,
        offerer: Offerer<'_>,
        event: &Pdu,
        outcome: Option<Outcome>,
    ) -> Result<(), AllocError> {
        match outcome {
            Some(Outcome::Kept(_)) => {
                self.keep(event);
                Ok(())
            }
            Some(Outcome::Known(_)) => {
                self.know(event);
                Ok(())
            }
            Some(Outcome::Refused(why)) => self.refuse(offerer, event, cause_of_refusal(why)),
            None => self.refuse(offerer, event, RefusedCause::UnknownRoom),
        }
    }

    fn keep(&mut self, event: &Pdu) {
        if event.room_id() == &self.room {
            self.kept = self.kept.saturating_add(1);
        }
    }

    fn know(&mut self, event: &Pdu) {
        if event.room_id() == &self.room {
            self.counts.known = self.counts.known.saturating_add(1);
        }
    }

    fn refuse(
        &mut self,
        offerer: Offerer<'_>,
        event: &Pdu,
        cause: RefusedCause,
    ) -> Result<(), AllocError> {
        if event.room_id() != &self.room {
            return Ok(());
        }
        let refused = RefusedEvent {
            offering: offerer.offering(self.alloc, self.kept)?,
            cause,
            missing: Vec::new(self.alloc),
            id: event.event_id(self.alloc)?,
            event: event.clone()?,
        };
        self.not_kept.push(NotKept::Refused(refused))?;
        Ok(())
    }

    fn add_malformed(&mut self, offerer: Offerer<'_>, values: &[Value]) -> Result<(), AllocError> {
        for malformed in malformed_among(self.alloc, values, self.room.as_str())? {
            let told = MalformedEvent {
                offering: offerer.offering(self.alloc, self.kept)?,
                position: malformed.position,
                field: malformed.field,
                fault: malformed.fault,
            };
            self.not_kept.push(NotKept::Malformed(told))?;
        }
        Ok(())
    }
}
