// What citations lead to in a record that may have one row more behind it.
ghost use Rattle.std.specs.Prelude.{◌≡◌, ◌<◌, ◌++◌, All, IfOk, List, Option, length, option_to_list};
ghost use Rattle.mx_graph.specs.Edges.{Rises};
ghost use Rattle.mx_graph.specs.Graph as closure;
ghost use Rattle.mx_graph.specs.Record.{Row};

use mx_graph::{EventNo, Graph, graph_is_sound};
use std::alloc::{AllocError, Global};

/// The ancestors of some events, rising. A row that came after these events changes none of them.
pub(crate) fn earlier_ancestors(
    alloc: Global,
    graph: &Graph,
    starts: &[EventNo],
) -> Result<Vec<EventNo>, AllocError>
    ensures set { IfOk result (λ found. (earlier : List Row) (next : Option Row) → graph.now ≡ earlier ++ option_to_list next
        → All (λ start. start < length earlier) starts.now → found.items ≡ closure.ancestors earlier starts.now) }
    ensures rises { IfOk result (λ found. Rises found.items) }
{
    graph_is_sound(graph);
    let found = graph.ancestors(alloc, starts)?;
    Ok(found)
}

/// The auth chain of some events, rising. A row that came after these events changes none of it.
pub(crate) fn earlier_auth_chain(
    alloc: Global,
    graph: &Graph,
    starts: &[EventNo],
) -> Result<Vec<EventNo>, AllocError>
    ensures set { IfOk result (λ found. (earlier : List Row) (next : Option Row) → graph.now ≡ earlier ++ option_to_list next
        → All (λ start. start < length earlier) starts.now → found.items ≡ closure.auth_chain earlier starts.now) }
    ensures rises { IfOk result (λ found. Rises found.items) }
{
    graph_is_sound(graph);
    let found = graph.auth_chain(alloc, starts)?;
    Ok(found)
}
