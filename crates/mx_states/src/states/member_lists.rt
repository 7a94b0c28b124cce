// The keys of members, by the servers of the users.
ghost use Rattle.std.specs.Prelude.{◌≡◌, List, OnErr, OnOk, [], option_map, ℕ};
ghost use Rattle.mx_ident.specs.Identifier.{server_of};
ghost use Rattle.mx_states.specs.MemberKeys.{is_member_key};
ghost use Rattle.mx_states.specs.MemberLists.{listed, member_server, with_number};

use crate::states::key_numbers::KeyNo;
use mx_ident::UserId;
use std::alloc::{AllocError, Global};
use std::collections::BTreeMap;

// The numbers of the keys at which users are members, by the users' servers.
#[derive(Debug, Drop)]
pub(crate) struct MemberLists {
    // By the text of the server, so that a look-up copies nothing. A list may be empty.
    lists: BTreeMap<String, Vec<KeyNo>>,
}

impl MemberLists {
    // Lists with no keys.
    pub fn new(alloc: Global) -> MemberLists
        ensures { (server : List ℕ) → listed result server ≡ [] }
    {
        MemberLists {
            lists: BTreeMap::new(alloc),
        }
    }

    // The numbers for a server.
    pub fn get(&self, server: &str) -> &[KeyNo]
        ensures { result.now ≡ listed self.now server.now }
    {
        match self.lists.get(server) {
            Some(numbers) => numbers,
            None => &[],
        }
    }

    // Adds the number of a key where that is the key of a member. For another key it takes no memory.
    pub fn add(
        &mut self,
        alloc: Global,
        kind: &str,
        state_key: &str,
        number: KeyNo,
    ) -> Result<(), AllocError>
        ensures ok { OnOk result ((server : List ℕ) → listed self.new server
            ≡ with_number (is_member_key server (kind.now, state_key.now)) number (listed self.old server)) }
        ensures err { OnErr result ((server : List ℕ) → listed self.new server ≡ listed self.old server) }
    {
        if let Some(server) = member_server(kind, state_key) {
            let text = String::from_str(alloc, server)?;
            self.lists.entry(text)?.or_default().push(number)?;
        }
        Ok(())
    }
}

// The server of the user whose membership stands at a type and a state key. No server at a key of another kind.
fn member_server<'k>(kind: &str, state_key: &'k str) -> Option<&'k str>
    ensures { option_map (λ server. server.now) result ≡ member_server (kind.now, state_key.now) }
{
    if kind == "m.room.member" && UserId::is(state_key) {
        Some(server_in(state_key))
    } else {
        None
    }
}

// The server that a user id names.
fn server_in(user: &str) -> &str
    ensures { result.now ≡ server_of user.now }
{
    match user.split_once(':') {
        Some((_, server)) => server,
        None => "",
    }
}
