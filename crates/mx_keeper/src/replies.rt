// Replies to transactions.
ghost use Rattle.std.specs.Prelude.{◌≡◌, IsUtf8, string_bytes};

use std::alloc::AllocError;
use std::marker::Model;

/// The body of the reply to a transaction, which is UTF-8.
#[derive(Debug, Drop)]
pub struct Reply {
    text: String,
}

impl Model for Reply {
    ghost use Rattle.std.specs.Prelude.{List, ℕ, string_bytes};

    ghost Value = { List ℕ };

    ghost view = { λ reply. string_bytes reply.text };
}

impl Reply {
    /// The reply with this text.
    pub fn new(text: String) -> Reply
        ensures { result ≡ string_bytes text }
    {
        Reply { text }
    }

    /// The reply with these bytes. It takes no memory.
    pub fn from_utf8(bytes: Vec<u8>) -> Reply
        requires { IsUtf8 bytes.items }
        ensures { result ≡ bytes.items }
    {
        match String::from_utf8(bytes) {
            Ok(text) => Reply { text },
            Err(_) => unreachable!(),
        }
    }

    /// Its text.
    pub fn as_str(&self) -> &str
        ensures text { result.now ≡ self.now }
        ensures utf8 { IsUtf8 self.now }
    {
        self.text.as_str()
    }

    /// Its bytes.
    pub fn as_bytes(&self) -> &[u8]
        ensures { result.now ≡ self.now }
    {
        self.text.as_bytes()
    }

    /// Its text, taken out.
    pub fn into_string(self) -> String
        ensures { string_bytes result ≡ self }
    {
        let Reply { text } = self;
        text
    }
}

impl Clone for Reply {
    ghost is_clone = { λ reply copy. copy ≡ reply };

    fn clone(&self) -> Result<Reply, AllocError> {
        let text = self.text.clone()?;
        Ok(Reply { text })
    }
}
