// What a line is answered.
pub(crate) mod step_texts;
pub(crate) mod writing;

use mx_requests::WireReply;
use mx_world::StepReply;

/// The answer to a line.
#[derive(Drop)]
pub(crate) enum LineAnswer {
    // The line has no form.
    Bad,
    // It hosts a room by a malformed event.
    MalformedHost,
    Step(StepReply),
    Response(WireReply),
}

/// What a line is that is refused for want of memory.
#[derive(Clone, Copy, Drop)]
pub(crate) enum LineRefusal {
    // A step, or it could not be read.
    Step,
    Request,
}
