// The tables of SQLite that rows stand in: of shards, in the first and in the second layout, and of books.

mod book_tables;
mod cells;
mod first_rows;
mod layout_numbers;
mod schemas;
mod second_layout;
mod selected_rows;
mod shard_tables;
pub(crate) mod table_rows;
