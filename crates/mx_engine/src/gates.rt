// What is called while a shard is held.
use std::sync::Wait;

/// What an engine calls while a caller holds a shard, before the shard is called. It changes no answer: tests hold a
/// caller inside one shard until another caller is inside another one.
pub trait Gate {
    /// The shard with this number is held. It may wait.
    fn inside<R: Wait>(&self, rt: &R, shard: usize);
}

/// A gate that lets each caller through.
#[derive(Clone, Copy, Debug, PartialEq, Eq, Default, Drop)]
pub struct OpenGate;

impl Gate for OpenGate {
    fn inside<R: Wait>(&self, _rt: &R, _shard: usize) {}
}
