// Transactions by their senders and numbers.
use mx_ident::ServerName;
use mx_keeper::TransactionId;
use std::alloc::AllocError;
use std::cmp::Ordering;

/// A transaction: the server that sends it, and the number that this server gave it. Both are compared whole, as bytes.
///
/// Source: the Matrix specification, Server-Server API, "Transactions".
#[derive(Debug, Drop)]
pub struct TransactionKey {
    pub origin: ServerName,
    pub txn: TransactionId,
}

impl Clone for TransactionKey {
    ghost use Rattle.std.specs.Prelude.{◌≡◌};

    ghost is_clone = { λ key copy. copy ≡ key };

    fn clone(&self) -> Result<TransactionKey, AllocError> {
        let origin = self.origin.clone()?;
        let txn = self.txn.clone()?;
        Ok(TransactionKey { origin, txn })
    }
}

impl PartialEq for TransactionKey {
    ghost use Rattle.std.specs.Cmp.{partial_equiv_from_equiv};
    ghost use Rattle.mx_book.specs.Transactions.{same};
    ghost use Rattle.mx_book.specs.TransactionLaws.{same_equiv};

    ghost eq = { same };

    ghost laws = { partial_equiv_from_equiv same_equiv };

    fn eq(&self, other: &TransactionKey) -> bool {
        self.origin.as_str() == other.origin.as_str() && self.txn.as_str() == other.txn.as_str()
    }
}

impl Eq for TransactionKey {
    ghost use Rattle.mx_book.specs.TransactionLaws.{same_equiv};

    ghost laws = { same_equiv };
}

impl PartialOrd for TransactionKey {
    ghost use Rattle.std.specs.Prelude.{Some};
    ghost use Rattle.mx_book.specs.Transactions.{transaction_cmp};
    ghost use Rattle.mx_book.specs.TransactionLaws.{transaction_po};

    ghost partial_cmp = { λ a b. Some (transaction_cmp a b) };

    ghost laws = { transaction_po };

    fn partial_cmp(&self, other: &TransactionKey) -> Option<Ordering> {
        Some(self.cmp(other))
    }
}

impl Ord for TransactionKey {
    ghost use Rattle.std.specs.Prelude.{refl};
    ghost use Rattle.mx_book.specs.Transactions.{transaction_cmp};
    ghost use Rattle.mx_book.specs.TransactionLaws.{transaction_total, transaction_ties};

    ghost cmp = { transaction_cmp };

    ghost total = { transaction_total };

    ghost matches_partial_cmp = { λ _ _. refl };

    ghost matches_eq = { transaction_ties };

    fn cmp(&self, other: &TransactionKey) -> Ordering {
        let by_origin = self.origin.as_str().cmp(other.origin.as_str());
        by_origin.then(self.txn.as_str().cmp(other.txn.as_str()))
    }
}
