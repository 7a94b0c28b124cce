// Whether a server's files have all that its replies say.
ghost use Rattle.std.specs.Prelude.{◌≡◌, ◌⊎◌, ◌++◌, false, [], IfErr, IfOk, IsSome, OnOk, map, option_map, slice_get, string_bytes};
ghost use Rattle.mx_server.specs.Losses as definition;

use mx_directory::{ServerError, StartError};
use mx_keeper::{BookRow, Keeper, ShardRow};
use mx_world::World;
use std::alloc::{AllocError, Global};

/// Looks in the shards for each event that the replies of the books call kept. It gives a line for each book of which some
/// are in no shard, in the order of the books, where that loss is accepted.
///
/// Where it is not, a loss is `Storage`, about the first such book. `Memory` where no memory is left.
pub(crate) fn check_losses<K: Keeper<Row = ShardRow>, L: Keeper<Row = BookRow>>(
    alloc: Global,
    server: &World<K, L>,
    books: usize,
    directory: &str,
    is_accepted: bool,
) -> Result<Vec<String>, StartError>
    ensures lines { IfOk result (λ lines.
        map string_bytes lines.items ≡ definition.loss_lines directory.now (definition.lost_count server.now) books) }
    ensures none { IfOk result (λ _. is_accepted ≡ false
        → definition.loss_lines directory.now (definition.lost_count server.now) books ≡ []) }
    ensures lost { IfErr result (λ refused. refused.error ≡ ServerError.Storage → (is_accepted ≡ false)
        × IsSome refused.cause
        × (option_map string_bytes refused.cause
        ≡ slice_get (definition.loss_lines directory.now (definition.lost_count server.now) books) 0)) }
    ensures err { IfErr result (λ refused. (refused.error ≡ ServerError.Memory) ⊎ (refused.error ≡ ServerError.Storage)) }
{
    let losses = loss_lines(alloc, server, books, directory)?;
    if is_accepted || losses.is_empty() {
        return Ok(losses);
    }
    Err(StartError {
        error: ServerError::Storage,
        cause: losses.into_iter().next(),
    })
}

// The lines of so many books, those of which events are lost.
fn loss_lines<K: Keeper<Row = ShardRow>, L: Keeper<Row = BookRow>>(
    alloc: Global,
    server: &World<K, L>,
    books: usize,
    directory: &str,
) -> Result<Vec<String>, AllocError>
    ensures { IfOk result (λ lines.
        map string_bytes lines.items ≡ definition.loss_lines directory.now (definition.lost_count server.now) books) }
{
    let mut lines = Vec::new(alloc);
    for number in 0..books {
        let lost = server.lost_events(alloc, number)?;
        push_loss(alloc, &mut lines, directory, number, lost.len())?;
    }
    Ok(lines)
}

// Adds the line of a book of whose events so many are lost, where some are.
fn push_loss(
    alloc: Global,
    lines: &mut Vec<String>,
    directory: &str,
    number: usize,
    lost: usize,
) -> Result<(), AllocError>
    ensures { OnOk result (map string_bytes lines.new.items
        ≡ map string_bytes lines.old.items ++ definition.line_if directory.now number lost) }
{
    if lost == 0 {
        return Ok(());
    }
    let line = loss_line(alloc, directory, number, lost)?;
    lines.push(line)?;
    Ok(())
}

// Which book's replies are of lost events, and of how many.
fn loss_line(
    alloc: Global,
    directory: &str,
    number: usize,
    lost: usize,
) -> Result<String, AllocError>
    ensures { IfOk result (λ line. string_bytes line ≡ definition.loss_line directory.now number lost) }
{
    if lost == 1 {
        return format!(in alloc;
            "{directory}/book-{number}.db: 1 event that its replies call kept is in no shard"
        );
    }
    format!(in alloc;
        "{directory}/book-{number}.db: {lost} events that its replies call kept are in no shard"
    )
}
