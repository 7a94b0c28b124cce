// Server names.
ghost use Rattle.std.specs.Prelude.{◌≡◌, ◌↔◌, IfOk, IsErrOf, IsTrue, IsUtf8, List, OnOk, ℕ, Some, bytes_eq, refl, string_bytes};
ghost use Rattle.std.specs.Cmp.{partial_equiv_from_equiv};
ghost use Rattle.std.specs.Cmp.Lexicographic.{nat_list_cmp_total, nat_list_eq_equiv, slice_cmp, texts_po, texts_ties};
ghost use Rattle.std.specs.Ordering.{nat_cmp};
ghost use Rattle.std.specs.Result.{result_err};
ghost use Rattle.mx_ident.specs.Identifier.{host, is_ip_literal, is_server_name, server_name_error};
ghost use Rattle.mx_ident.specs.declared.refusals.NotAnId.{NotAnId as Cause};

use crate::checking::check_server_name;
use crate::hosts::{host_of, is_ip_host};
use crate::refusals::{IdError, NotAnId};
use std::alloc::{AllocError, Global};
use std::cmp::Ordering;
use std::fmt;
use std::marker::Model;

/// A server name, as `example.org:8448`: a host and perhaps a port, not empty and at most 255 bytes. Two server names
/// are the same where their texts are equal, port and letter case included.
///
/// Source: the appendix "Server Name" of the Matrix specification.
#[derive(Debug, Drop)]
pub struct ServerName {
    text: String,
}

impl Model for ServerName {
    ghost Value = { List ℕ };

    ghost view = { λ name. string_bytes name.text };

    ghost invariant = { λ name. IsTrue (is_server_name (string_bytes name.text)) };
}

impl ServerName {
    /// The server name with this text.
    ///
    /// `NotAnId` with the cause that [`ServerName::check`] gives.
    pub fn parse(alloc: Global, text: &str) -> Result<ServerName, IdError>
        ensures ok { IfOk result (λ name. name ≡ text.now) }
        ensures kind { OnOk result (IsTrue (is_server_name text.now)) }
        // It is tested first, so that memory may run out only where the text is a server name.
        ensures refused { (cause : Cause)
            → (IsErrOf result (IdError.NotAnId cause) ↔ (server_name_error text.now ≡ Some cause)) }
    {
        ServerName::check(text)?;
        let name = ServerName::of_checked(alloc, text)?;
        Ok(name)
    }

    pub(crate) fn of_checked(alloc: Global, text: &str) -> Result<ServerName, AllocError>
        requires { IsTrue (is_server_name text.now) }
        ensures { IfOk result (λ name. name ≡ text.now) }
    {
        let text = String::from_str(alloc, text)?;
        Ok(ServerName { text })
    }

    /// Whether the text is a server name, and if not, why. It takes no memory.
    ///
    /// `EmptyServer`, then `TooLong`.
    pub fn check(text: &str) -> Result<(), NotAnId>
        ensures { result_err result ≡ server_name_error text.now }
    {
        check_server_name(text)
    }

    /// Whether the text is a server name. It takes no memory.
    pub fn is(text: &str) -> bool
        ensures { result ≡ is_server_name text.now }
    {
        ServerName::check(text).is_ok()
    }

    /// Its text.
    pub fn as_str(&self) -> &str
        ensures text { result.now ≡ self.now }
        ensures server_name { IsTrue (is_server_name self.now) }
        ensures utf8 { IsUtf8 self.now }
    {
        &self.text
    }

    /// The text of its host, without the port. It takes no memory.
    ///
    /// Where the name begins with `[` and has a `]`, the host ends with the first `]`. Otherwise a port is the last
    /// colon with 1 to 5 digits after it to the end, and without one the host is the whole name.
    pub fn host(&self) -> &str
        ensures { result.now ≡ host self.now }
    {
        host_of(self.as_str())
    }

    /// Whether its host is an IP literal: it begins with `[`, or is four numbers of 1 to 3 digits, each at most 255,
    /// between dots. It takes no memory.
    ///
    /// Source: the event `m.room.server_acl` of the Matrix specification.
    pub fn is_ip_literal(&self) -> bool
        ensures { result ≡ is_ip_literal self.now }
    {
        is_ip_host(self.host())
    }
}

impl Clone for ServerName {
    ghost is_clone = { λ name copy. copy ≡ name };

    fn clone(&self) -> Result<ServerName, AllocError> {
        let text = self.text.clone()?;
        Ok(ServerName { text })
    }
}

impl fmt::Display for ServerName {
    ghost output = { λ name. Some name };

    fn fmt<W: fmt::Write>(&self, f: &mut fmt::Formatter<W>) -> fmt::Result {
        fmt::Display::fmt(&self.as_str(), f)
    }
}

// They compare as their texts do, byte by byte.
impl PartialEq for ServerName {
    ghost eq = { bytes_eq };

    ghost laws = { partial_equiv_from_equiv nat_list_eq_equiv };

    fn eq(&self, other: &ServerName) -> bool {
        self.as_str() == other.as_str()
    }
}

impl Eq for ServerName {
    ghost laws = { nat_list_eq_equiv };
}

impl PartialOrd for ServerName {
    ghost partial_cmp = { λ a b. Some (slice_cmp nat_cmp a b) };

    ghost laws = { texts_po };

    fn partial_cmp(&self, other: &ServerName) -> Option<Ordering> {
        Some(self.cmp(other))
    }
}

impl Ord for ServerName {
    ghost cmp = { slice_cmp nat_cmp };

    ghost total = { nat_list_cmp_total };

    ghost matches_partial_cmp = { λ _ _. refl };

    ghost matches_eq = { texts_ties };

    fn cmp(&self, other: &ServerName) -> Ordering {
        self.as_str().cmp(other.as_str())
    }
}
