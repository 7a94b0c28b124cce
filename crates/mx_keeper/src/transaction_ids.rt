// The numbers that servers give their transactions.
ghost use Rattle.std.specs.Prelude.{◌≡◌, IsUtf8, string_bytes};

use std::alloc::AllocError;
use std::marker::Model;

/// A transaction's number, which is any text that the sending server chose.
///
/// Source: the Matrix specification, Server-Server API, "Transactions", `txnId`.
#[derive(Debug, Drop)]
pub struct TransactionId {
    text: String,
}

impl Model for TransactionId {
    ghost use Rattle.std.specs.Prelude.{List, ℕ, string_bytes};

    ghost Value = { List ℕ };

    ghost view = { λ id. string_bytes id.text };
}

impl TransactionId {
    /// The number with this text.
    pub fn new(text: String) -> TransactionId
        ensures { result ≡ string_bytes text }
    {
        TransactionId { text }
    }

    /// Its text.
    pub fn as_str(&self) -> &str
        ensures text { result.now ≡ self.now }
        ensures utf8 { IsUtf8 self.now }
    {
        self.text.as_str()
    }

    /// Its text, taken out.
    pub fn into_string(self) -> String
        ensures { string_bytes result ≡ self }
    {
        let TransactionId { text } = self;
        text
    }
}

impl Clone for TransactionId {
    ghost is_clone = { λ id copy. copy ≡ id };

    fn clone(&self) -> Result<TransactionId, AllocError> {
        let text = self.text.clone()?;
        Ok(TransactionId { text })
    }
}
