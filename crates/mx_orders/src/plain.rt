//! The plain body under the contract of a fast one, which tests compare with it.

mod plain_mainline_ordering;

pub use plain_mainline_ordering::plain_mainline_order;
