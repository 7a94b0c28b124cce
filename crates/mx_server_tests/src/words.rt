// Replies and refusals, each in a word.
use mx_world::{Answer, CallError, Denied, QueryReply, StepReply};

pub fn word_of_refusal(refusal: CallError) -> &'static str {
    match refusal {
        CallError::Storage => "storage",
        CallError::Memory => "memory",
    }
}

pub fn word(reply: &StepReply) -> &'static str {
    match reply {
        StepReply::OfRoom(answer) => word_of_answer(answer),
        StepReply::OfEvent(_) => "told",
        StepReply::Replayed(_) => "kept",
        StepReply::Closed(_) => "closed",
        StepReply::Opened(_) => "opened",
        _ => "other",
    }
}

pub fn word_of_answer(answer: &Answer) -> &'static str {
    match answer {
        Answer::Hosted(_) => "hosted",
        Answer::NotHosted => "unhosted",
        Answer::ToAsked(asked) => word_of_asked(asked),
        _ => "other",
    }
}

fn word_of_asked(asked: &Result<QueryReply, Denied>) -> &'static str {
    match asked {
        Ok(reply) => word_of_query(reply),
        Err(denied) => word_of_denial(denied),
    }
}

fn word_of_query(reply: &QueryReply) -> &'static str {
    match reply {
        QueryReply::Event(_) => "shown",
        QueryReply::State { .. } => "state",
        QueryReply::StateIds { .. } => "ids",
        QueryReply::EventAuth(_) => "chain",
        QueryReply::Events(_) => "events",
        _ => "other",
    }
}

fn word_of_denial(denied: &Denied) -> &'static str {
    match denied {
        Denied::NotInRoom => "outside",
        Denied::NotFound => "absent",
        _ => "other",
    }
}
