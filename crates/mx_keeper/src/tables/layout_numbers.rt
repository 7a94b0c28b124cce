// The number of a file's layout.
ghost use Rattle.std.specs.Prelude.{◌≡◌};
ghost use Rattle.mx_keeper.specs.ShardTable.{is_second};

use crate::faults::KeeperFault;
use crate::tables::cells::{check_place, number_at};
use crate::tables::selected_rows::SelectedRow;
use sqlite::Row;
use std::alloc::Global;

/// A row of the table that states which layout a shard's file has.
#[derive(Drop)]
pub struct LayoutNumber {
    pub number: u64,
}

impl SelectedRow for LayoutNumber {
    ghost use Rattle.mx_keeper.specs.Placed.{number_placed};
    ghost use Rattle.mx_keeper.specs.Selections.{HasSecond, selects_number};
    ghost use Rattle.mx_keeper.specs.ShardTable.{layout_columns, layout_shown, select_layout_text};

    ghost select_text = { select_layout_text };

    ghost has_table = { HasSecond };

    ghost tree = { 2 };

    ghost columns = { layout_columns };

    ghost shown = { layout_shown };

    fn select() -> &'static str {
        "SELECT place, number FROM layout ORDER BY place"
    }

    fn read(_alloc: Global, row: &Row, place: u64) -> Result<LayoutNumber, KeeperFault> {
        check_place(row, place)?;
        let number = number_at(row, 1)?;
        Ok(LayoutNumber { number })
    }

    ghost selects = { selects_number };

    ghost placed = { number_placed };
}

/// Whether these rows state the second layout, and nothing else.
pub fn state_the_second(numbers: &[LayoutNumber]) -> bool
    ensures { result ≡ is_second numbers.now }
{
    match numbers {
        [number] => number.number == 2,
        _ => false,
    }
}
