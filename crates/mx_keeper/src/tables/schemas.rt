// Whether a database has its tables.
ghost use Rattle.std.specs.Prelude.{◌≡◌, ◌↔◌, IsTrue, true, false, codes, [], ◌∷◌};
ghost use Rattle.sqlite.specs.Kind.TheVariants.{Integer, Text};
ghost use Rattle.sqlite_value.specs.Keys.{plain};
ghost use Rattle.mx_keeper.specs.BookTable.{pairs, replies, replies_schema};
ghost use Rattle.mx_keeper.specs.Schemas.{no_schema, plain_column, plain_table};
ghost use Rattle.mx_keeper.specs.FirstLayout.{kept, kept_schema};
ghost use Rattle.mx_keeper.specs.ShardTable.{kept2, layout, shard_schema};

use sqlite_items::Items;
use sqlite_schema::code::Terms;
use sqlite_schema::schema::{Column, Index, Kind, Schema, Stamps, Table};
use sqlite_value::keys::{Collation, Order};
use sqlite_value::value::Value;

/// Whether it has no table, index or view.
pub fn has_nothing(schema: &Schema) -> bool
    ensures { IsTrue result ↔ (schema.now ≡ no_schema) }
{
    schema.tables.is_empty() && schema.indexes.is_empty() && schema.views.is_empty()
}

/// Whether it has the table of a shard's rows in the first layout alone.
pub fn has_kept(schema: &Schema) -> bool
    ensures { IsTrue result ↔ (schema.now ≡ kept_schema) }
{
    schema.indexes.is_empty()
        && schema.views.is_empty()
        && schema.tables.len() == 1
        && is_kept(&schema.tables.as_slice()[0])
}

fn is_kept(table: &Table) -> bool
    ensures { IsTrue result ↔ (table.now ≡ kept) }
{
    table.name.as_slice() == b"kept".as_slice()
        && is_plain(table, 0)
        && table.uniques.is_empty()
        && table.orders.is_empty()
        && are_kept(table.columns.as_slice())
}

fn are_kept(columns: &[Column]) -> bool
    ensures { IsTrue result ↔ (columns.now ≡ plain_column (codes "place") Integer false ∷ plain_column (codes "room") Text true ∷ plain_column (codes "event") Text true ∷ plain_column (codes "caller") Integer true ∷ []) }
{
    columns.len() == 4
        && is_integer(&columns[0], b"place", false)
        && is_text_column(&columns[1], b"room")
        && is_text_column(&columns[2], b"event")
        && is_integer(&columns[3], b"caller", true)
}

/// Whether it has the three tables of a shard's file alone.
pub fn has_shard_tables(schema: &Schema) -> bool
    ensures { IsTrue result ↔ (schema.now ≡ shard_schema) }
{
    schema.indexes.is_empty()
        && schema.views.is_empty()
        && schema.tables.len() == 3
        && is_kept(&schema.tables.as_slice()[0])
        && is_kept2(&schema.tables.as_slice()[1])
        && is_layout(&schema.tables.as_slice()[2])
}

fn is_kept2(table: &Table) -> bool
    ensures { IsTrue result ↔ (table.now ≡ kept2 1) }
{
    table.name.as_slice() == b"kept2".as_slice()
        && is_plain(table, 1)
        && table.uniques.is_empty()
        && table.orders.is_empty()
        && are_kept2(table.columns.as_slice())
}

fn are_kept2(columns: &[Column]) -> bool
    ensures { IsTrue result ↔ (columns.now ≡ plain_column (codes "place") Integer false ∷ plain_column (codes "room") Text true ∷ plain_column (codes "version") Text true ∷ plain_column (codes "event") Text true ∷ plain_column (codes "caller") Integer true ∷ []) }
{
    columns.len() == 5
        && is_integer(&columns[0], b"place", false)
        && is_text_column(&columns[1], b"room")
        && is_text_column(&columns[2], b"version")
        && is_text_column(&columns[3], b"event")
        && is_integer(&columns[4], b"caller", true)
}

fn is_layout(table: &Table) -> bool
    ensures { IsTrue result ↔ (table.now ≡ layout 2) }
{
    table.name.as_slice() == b"layout".as_slice()
        && is_plain(table, 2)
        && table.uniques.is_empty()
        && table.orders.is_empty()
        && are_layout(table.columns.as_slice())
}

fn are_layout(columns: &[Column]) -> bool
    ensures { IsTrue result ↔ (columns.now ≡ plain_column (codes "place") Integer false ∷ plain_column (codes "number") Integer true ∷ []) }
{
    columns.len() == 2
        && is_integer(&columns[0], b"place", false)
        && is_integer(&columns[1], b"number", true)
}

/// Whether it has the table of a book's replies alone, and the index of its pairs.
pub fn has_replies(schema: &Schema) -> bool
    ensures { IsTrue result ↔ (schema.now ≡ replies_schema) }
{
    schema.views.is_empty()
        && schema.indexes.len() == 1
        && schema.tables.len() == 1
        && is_pairs(&schema.indexes.as_slice()[0])
        && is_replies(&schema.tables.as_slice()[0])
}

fn is_pairs(index: &Index) -> bool
    ensures { IsTrue result ↔ (index.now ≡ pairs) }
{
    index.name.as_slice() == b"sqlite_autoindex_replies_1".as_slice()
        && index.tree == 1
        && index.table == 0
        && is_pair(index.columns.as_slice())
        && index.order.digits == 0
        && index.is_unique
}

fn is_replies(table: &Table) -> bool
    ensures { IsTrue result ↔ (table.now ≡ replies) }
{
    table.name.as_slice() == b"replies".as_slice()
        && is_plain(table, 0)
        && has_one_pair(table.uniques.as_slice())
        && has_one_order(table.orders.as_slice())
        && are_replies(table.columns.as_slice())
}

fn are_replies(columns: &[Column]) -> bool
    ensures { IsTrue result ↔ (columns.now ≡ plain_column (codes "place") Integer false ∷ plain_column (codes "origin") Text true ∷ plain_column (codes "txn") Text true ∷ plain_column (codes "reply") Text true ∷ []) }
{
    columns.len() == 4
        && is_integer(&columns[0], b"place", false)
        && is_text_column(&columns[1], b"origin")
        && is_text_column(&columns[2], b"txn")
        && is_text_column(&columns[3], b"reply")
}

fn has_one_pair(uniques: &[Items<usize>]) -> bool
    ensures { IsTrue result ↔ (uniques.now ≡ (2 ∷ 3 ∷ []) ∷ []) }
{
    uniques.len() == 1 && is_pair(uniques[0].as_slice())
}

fn has_one_order(orders: &[Order]) -> bool
    ensures { IsTrue result ↔ (orders.now ≡ plain ∷ []) }
{
    orders.len() == 1 && orders[0].digits == 0
}

fn is_pair(places: &[usize]) -> bool
    ensures { IsTrue result ↔ (places.now ≡ 2 ∷ 3 ∷ []) }
{
    places.len() == 2 && places[0] == 2 && places[1] == 3
}

fn is_integer(column: &Column, name: &[u8], not_null: bool) -> bool
    ensures { IsTrue result ↔ (column.now ≡ plain_column name.now Integer not_null) }
{
    is_plain_column(column, name, not_null) && matches!(column.kind, Kind::Integer)
}

fn is_text_column(column: &Column, name: &[u8]) -> bool
    ensures { IsTrue result ↔ (column.now ≡ plain_column name.now Text true) }
{
    is_plain_column(column, name, true) && matches!(column.kind, Kind::Text)
}

fn is_plain_column(column: &Column, name: &[u8], not_null: bool) -> bool
    ensures { IsTrue result ↔ (column.now ≡ plain_column name.now column.now.kind not_null) }
{
    column.name.as_slice() == name
        && !column.is_strict
        && column.not_null == not_null
        && matches!(column.default, Value::Null)
        && matches!(column.collation, Collation::Binary)
}

fn is_plain(table: &Table, tree: u32) -> bool
    ensures { IsTrue result ↔ (table.now ≡ plain_table table.now.name tree table.now.columns table.now.uniques table.now.orders) }
{
    table.tree == tree
        && table.key == Some(0)
        && is_first(table.primary.as_slice())
        && has_none(&table.checks)
        && table.references.is_empty()
        && table.computed.is_empty()
        && has_no_stamps(&table.stamps)
        && !table.is_counted
}

fn is_first(places: &[usize]) -> bool
    ensures { IsTrue result ↔ (places.now ≡ 0 ∷ []) }
{
    places.len() == 1 && places[0] == 0
}

fn has_none(terms: &Terms) -> bool
    ensures { IsTrue result ↔ (terms.now ≡ []) }
{
    terms.roots.is_empty()
}

fn has_no_stamps(stamps: &Stamps) -> bool
    ensures { IsTrue result ↔ (stamps.now ≡ record { places = []; terms = []; formats = [] }) }
{
    stamps.places.is_empty() && has_none(&stamps.terms) && stamps.formats.is_empty()
}
