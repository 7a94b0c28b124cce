// Values for the tests, made of texts.
use mx_book::TransactionKey;
use mx_ident::{EventId, ServerName};
use mx_keeper::{BookRow, Reply, TransactionId};
use mx_pdu::Pdu;
use serde_json::Value;
use std::alloc::{AllocError, Global};

// Every other refusal would be seen in a test where memory is ample.
pub fn refused<E: Drop>(_error: E) -> AllocError {
    AllocError
}

pub fn event(alloc: Global, text: &str) -> Result<Pdu, AllocError> {
    let value = Value::from_str(alloc, text).map_err(refused)?;
    Pdu::from_value(alloc, value).map_err(refused)
}

pub fn event_id(alloc: Global, text: &str) -> Result<EventId, AllocError> {
    EventId::parse(alloc, text).map_err(refused)
}

pub fn server(alloc: Global, name: &str) -> Result<ServerName, AllocError> {
    ServerName::parse(alloc, name).map_err(refused)
}

// The transaction of a server with this number.
pub fn key(alloc: Global, origin: &str, txn: &str) -> Result<TransactionKey, AllocError> {
    let origin = server(alloc, origin)?;
    let txn = TransactionId::new(String::from_str(alloc, txn)?);
    Ok(TransactionKey { origin, txn })
}

pub fn reply(alloc: Global, text: &str) -> Result<Reply, AllocError> {
    let text = String::from_str(alloc, text)?;
    Ok(Reply::new(text))
}

pub fn book_row(alloc: Global, origin: &str, txn: &str, text: &str) -> Result<BookRow, AllocError> {
    let TransactionKey { origin, txn } = key(alloc, origin, txn)?;
    let reply = reply(alloc, text)?;
    Ok(BookRow { origin, txn, reply })
}
