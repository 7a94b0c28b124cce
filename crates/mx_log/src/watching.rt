// Who is told what the lines of a log do.
use mx_world::{Step, StepReply};

/// What a line of a log is.
///
/// `Bad`: it has no form. `MalformedHost`: it hosts a room by a malformed event. `Step`: one step of the server. `Request`: a
/// request of another server.
#[derive(Clone, Copy, Debug, PartialEq, Eq)]
pub enum LineForm {
    Bad,
    MalformedHost,
    Step,
    Request,
}

/// Who is told of each line of a log before it is done, and of each step of it that was taken, with its reply.
///
/// Nothing that is done or answered depends on who is told.
pub trait LogWatcher {
    /// A line was read, of this text and form.
    fn see_line(&mut self, text: &[u8], form: LineForm);

    /// A step of it was taken, and this is its reply.
    fn see_step(&mut self, step: &Step, reply: &StepReply);
}

/// Nobody is told.
#[derive(Drop)]
pub(crate) struct Nobody;

impl LogWatcher for Nobody {
    fn see_line(&mut self, _text: &[u8], _form: LineForm) {}

    fn see_step(&mut self, _step: &Step, _reply: &StepReply) {}
}
