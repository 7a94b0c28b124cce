// Why a row was not added.
ghost use Rattle.std.specs.Prelude.{◌≡◌};

use std::alloc::{AllocError, AllocFailed};
use thiserror::Error;

/// Why a graph does not take a row. Of several causes the first in this order is given.
#[derive(Clone, Copy, Debug, PartialEq, Eq, Drop, Error)]
pub enum NotAdded {
    // It has a row with the same event id.
    #[error("the event is known")]
    Known,
    #[error("a prev event is missing")]
    MissingPrevEvent,
    #[error("an auth event is missing")]
    MissingAuthEvent,
    // It has 50,000 rows.
    #[error("the graph is full")]
    Full,
}

/// Why a row was not added.
#[derive(Clone, Copy, Debug, PartialEq, Eq, Drop, Error)]
pub enum GraphError {
    // No memory was left.
    #[error("out of memory")]
    Memory,
    #[error(transparent)]
    NotAdded(NotAdded),
}

impl From<AllocError> for GraphError {
    ghost use Rattle.mx_graph.specs.declared.refusals.GraphError.TheVariants.{Memory};

    ghost from_gives = { λ _ e. e ≡ Memory };

    fn from(_refused: AllocError) -> GraphError {
        GraphError::Memory
    }
}

impl<T: Drop> From<AllocFailed<T>> for GraphError {
    ghost use Rattle.mx_graph.specs.declared.refusals.GraphError.TheVariants.{Memory};

    ghost from_gives = { λ _ e. e ≡ Memory };

    fn from(_refused: AllocFailed<T>) -> GraphError {
        GraphError::Memory
    }
}

impl From<NotAdded> for GraphError {
    ghost use Rattle.mx_graph.specs.declared.refusals.GraphError.TheVariants as variants;

    ghost from_gives = { λ cause e. e ≡ variants.NotAdded cause };

    fn from(cause: NotAdded) -> GraphError {
        GraphError::NotAdded(cause)
    }
}
