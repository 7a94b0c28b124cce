// A keeper whose file is watched.
ghost use Rattle.std.specs.Prelude.{◌≡◌};

use crate::file_states::FileState;
use mx_keeper::{Keeper, KeeperFault, SqliteKeeper, TableRow};
use sqlite::Alter;
use std::marker::Model;
use std::sync::Arc;

/// Rows in a table of SQLite, whose keeper refuses each new one with `Store` once its file is lost: removed, renamed or replaced, as
/// who watches it has told. Rows that were added then would not be found by the next start.
///
/// It tells how many rows it has, each once it is on the disk.
#[derive(Drop)]
pub struct WatchedKeeper<S: Alter + Drop, R: TableRow> {
    keeper: SqliteKeeper<S, R>,
    state: Arc<FileState>,
    // How many rows it refused since its file is lost.
    refusals: u64,
}

impl<S: Alter + Drop, R: TableRow> Model for WatchedKeeper<S, R> {
    ghost use Rattle.std.specs.Prelude.{◌≡◌};
    ghost use Rattle.mx_keeper.specs.SqliteKeepers.{KeeperView, keeper_code};
    ghost use Rattle.mx_directory.specs.WatchedKeepers.{WatchedView, watched_code};

    ghost Value = { WatchedView (KeeperView S) };

    ghost coded = { watched_code (keeper_code S.code) };

    ghost view = { λ keeper. record { keeper = keeper.keeper; refusals = keeper.refusals } };
}

impl<S: Alter + Drop, R: TableRow> WatchedKeeper<S, R> {
    /// A keeper around this one, of whose file this is told.
    pub(crate) fn new(keeper: SqliteKeeper<S, R>, state: Arc<FileState>) -> WatchedKeeper<S, R>
        ensures { result ≡ record { keeper = keeper; refusals = 0 } }
    {
        WatchedKeeper {
            keeper,
            state,
            refusals: 0,
        }
    }
}

// All but its refusals is as of the keeper within.
impl<S: Alter + Drop, R: TableRow> Keeper for WatchedKeeper<S, R> {
    ghost use Rattle.std.specs.Prelude.{◌≡◌, ◌⊎◌, IsTrue};
    ghost use mathlib.Core.Path.{ap, ◌∙◌};
    ghost use Rattle.sqlite.specs.Held.{state};
    ghost use Rattle.sqlite.specs.State.{HasCleanDisk};
    ghost use Rattle.sqlite.specs.Tree.{Trees};
    ghost use Rattle.mx_keeper.specs.Keeping.{Rose};
    ghost use Rattle.mx_keeper.specs.Refusals.{MayRefuseCall};
    ghost use Rattle.mx_directory.specs.WatchedKeepers.{failures_of};

    type Row = R;

    ghost rows = { λ keeper. R.read (state S.Store keeper.keeper.connection).committed.trees };

    ghost is_open = { λ keeper. IsTrue (state S.Store keeper.keeper.connection).is_open };

    ghost is_honest = { λ keeper. HasCleanDisk (state S.Store keeper.keeper.connection) };

    ghost may_leave = { λ keeper left. (db : Trees) × (state S.Store keeper.keeper.connection).may_leave db × (left ≡ R.read db) };

    ghost failed = { λ keeper. failures_of keeper.keeper.failures keeper.refusals };

    ghost unsure = { λ keeper. keeper.keeper.unsure };

    ghost is_ready = { λ keeper. IsTrue keeper.keeper.is_ready };

    // It refused the row itself, which it counts, or the keeper within did.
    ghost may_refuse = { λ old row new. Rose old.refusals new.refusals
        ⊎ MayRefuseCall R.schema R.read R.refuses row (state S.Store old.keeper.connection) (state S.Store new.keeper.connection) };

    fn append(&mut self, row: &R) -> Result<(), KeeperFault> {
        if self.state.is_lost() {
            self.refusals = self.refusals.saturating_add(1);
            return Err(KeeperFault::Store);
        }
        let added = self.keeper.append(row);
        if added.is_ok() {
            self.state.added_row();
        }
        added
    }

    fn rows(&mut self) -> Result<Vec<R>, KeeperFault> {
        let found = self.keeper.rows();
        if let Ok(rows) = &found {
            self.state.found_rows(rows.len() as u64);
        }
        found
    }

    fn failures(&self) -> u64 {
        self.keeper.failures().saturating_add(self.refusals)
    }

    ghost settled = { λ keeper left _ live it. it.2 ∙ ap R.read (S.Store.settled keeper.keeper.connection.store it.0 live it.1) };
}
