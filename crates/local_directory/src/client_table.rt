// What is kept of each client's latest request, found without a walk.
ghost use Rattle.std.specs.Prelude.{◌≡◌, IfOk, OnOk, OnErr, Some, is_some, true};
ghost use Rattle.std.specs.Option.{option_map};
ghost use Rattle.std.specs.FinMap as map;
ghost use Rattle.local_directory.specs.View.{kept_view};
ghost use Rattle.local_directory.specs.private.Changes.{with_kept};

use crate::kept::LatestReply;
use dir_search::Client;
use std::alloc::{AllocError, Global};
use std::collections::BTreeMap;
use std::marker::Model;

/// What is kept of each client's latest request, by client. A look-up costs the logarithm of the number of clients.
#[derive(Drop)]
pub struct ClientTable {
    latest: BTreeMap<Client, LatestReply>,
}

impl Model for ClientTable {
    ghost use Rattle.std.specs.FinMap as map;
    ghost use Rattle.local_directory.specs.private.ClientOrder.{client_cmp, coded_table};
    ghost use Rattle.local_directory.specs.Latest.{KeptValue};
    ghost use Rattle.local_directory.specs.View.{entries_view};

    ghost Value = { map.FinMap client_cmp KeptValue };

    ghost coded = { coded_table };

    ghost view = { λ table. map.from_entries (entries_view table.latest.entries) };
}

impl ClientTable {
    /// No clients. It takes no memory.
    pub fn new(alloc: Global) -> ClientTable
        ensures { result ≡ map.empty }
    {
        ClientTable {
            latest: BTreeMap::new(alloc),
        }
    }

    /// What is kept of a client's latest request, if it made any.
    pub fn latest(&self, client: Client) -> Option<&LatestReply>
        ensures { option_map (λ k. kept_view k.now) result ≡ map.get self.now client }
    {
        self.latest.get(&client)
    }

    /// Keeps this of a client's latest request, and gives back what was kept. At an error the table is unchanged.
    pub fn keep(
        &mut self,
        client: Client,
        kept: LatestReply,
    ) -> Result<Option<LatestReply>, AllocError>
        ensures ok { OnOk result (self.new ≡ map.insert self.old client (kept_view kept)) }
        ensures before { IfOk result (λ before. option_map kept_view before ≡ map.get self.old client) }
        ensures err { OnErr result (self.new ≡ self.old) }
    {
        match self.latest.insert(client, kept) {
            Ok(before) => Ok(before),
            Err(_) => Err(AllocError),
        }
    }

    /// Keeps this of the latest request of a client that the table has. It takes no memory.
    pub fn replace(&mut self, client: Client, kept: LatestReply)
        requires there { is_some (map.get self.old client) ≡ true }
        ensures { self.new ≡ map.insert self.old client (kept_view kept) }
    {
        match self.latest.insert(client, kept) {
            Ok(_) => {}
            Err(_) => unreachable!(),
        }
    }

    /// Keeps this of a client that the table has, or nothing. It takes no memory.
    pub fn put_back(&mut self, client: Client, kept: Option<LatestReply>)
        requires there { is_some (map.get self.old client) ≡ true }
        ensures { self.new ≡ with_kept self.old client (option_map kept_view kept) }
    {
        match kept {
            Some(kept) => self.replace(client, kept),
            None => self.forget(client),
        }
    }

    /// Keeps nothing of a client.
    fn forget(&mut self, client: Client)
        ensures { self.new ≡ map.remove self.old client }
    {
        self.latest.remove(&client);
    }
}
