// The berths of a dock.
use crate::journals::Journaled;
use crate::passes::DockPass;

/// The right of one owner to take a dock's value and to put it back.
///
/// Its number never changes, and no other berth of the dock has it. It knows which entries of the value's journal its
/// owner has seen and which came through it, and whether the value is out with it. Of each berth that is given back to it
/// it knows the same entries. A berth that is dropped while the value is out with it keeps all others waiting.
#[derive(Drop)]
pub struct Berth<T: Journaled> {
    pub(crate) pass: DockPass<T>,
}
