// A directory of one server alone: one store in memory, with no replicas.
ghost use Rattle.std.specs.Prelude.{◌≡◌, ◌+◌};
ghost use Rattle.std.specs.FinMap as map;
ghost use Rattle.dir_store.specs.indexed_tree.Stored.{NumbersBelow};
ghost use Rattle.dir_store.specs.directory_api.View.{ended_view};
ghost use Rattle.dir_store.specs.directory_api.ldap_op.View.{update_view};
ghost use Rattle.local_directory.specs.Allows.{Ends, made_next};

use crate::client_table::ClientTable;
use crate::ending::ended_before;
use crate::making::{ClientRequest, make};
use dir_search::{
    Client, CompareRequest, Directory, Ended, Found, LookError, Op, Reply, Role, SearchAnswer,
    SearchRequest, Update, compare_at, search_at,
};
use dir_store::Store;
use std::alloc::Global;
use std::marker::Model;

/// The greatest number that an update may have: a control names no greater one.
const LAST_NUMBER: u64 = 9223372036854775807;

/// One directory in memory that sessions read and update.
pub struct LocalDirectory {
    store: Store,
    /// The number of the last update; no entry has a higher one.
    number: u64,
    clients: ClientTable,
}

// Not derived: see "What the gate takes" in docs/ARCHITECTURE.md.
impl Drop for LocalDirectory {
    fn drop(self) {
        let LocalDirectory {
            store: _,
            number: _,
            clients: _,
        } = self;
    }
}

impl Model for LocalDirectory {
    ghost use Rattle.std.specs.Prelude.{◌+◌};
    ghost use Rattle.dir_store.specs.indexed_tree.Stored.{NumbersBelow};
    ghost use Rattle.std.specs.Coded.{codes};
    ghost use Rattle.local_directory.specs.private.ClientOrder.{coded_table};
    ghost use Rattle.local_directory.specs.Local.{LocalValue};

    ghost Value = { LocalValue };

    ghost coded = { Prim.hlevel (codes, coded_table) };

    ghost view = { λ d. record { directory = d.store.directory; number = d.number; latest = d.clients } };

    ghost invariant = { λ d. NumbersBelow (d.number + 1) d.store.directory.entries };
}

impl LocalDirectory {
    /// A directory that nobody has asked for an update yet. The number is that of its last update; no entry has a
    /// higher one. It takes no memory.
    pub fn new(alloc: Global, store: Store, number: u64) -> LocalDirectory
        requires below { NumbersBelow (number + 1) store.directory.entries }
        ensures { result ≡ record { directory = store.directory; number = number; latest = map.empty } }
    {
        LocalDirectory {
            store,
            number,
            clients: ClientTable::new(alloc),
        }
    }

    /// The directory after the last update.
    pub fn store(&self) -> &Store
        ensures { result.now.directory ≡ self.now.directory }
    {
        &self.store
    }

    /// The number of the last update.
    pub fn number(&self) -> u64
        ensures { result ≡ self.now.number }
    {
        self.number
    }

    /// Makes an update as the next one.
    fn make_next(&mut self, alloc: Global, client: Client, request: u64, op: &Op) -> Ended
        ensures { Ends (made_next self.old client request op.now) self.old (ended_view result) self.new }
    {
        if self.number >= LAST_NUMBER {
            return Ended::Lost;
        }
        let number = self.number + 1;
        let request = ClientRequest {
            client,
            number: request,
        };
        match make(
            alloc,
            &mut self.store,
            &mut self.clients,
            request,
            number,
            op,
        ) {
            Ok(reply) => {
                self.number = number;
                Ended::Done { number, reply }
            }
            Err(_) => Ended::NoMemory,
        }
    }

    /// Makes an update that its client asks for the first time.
    fn make_new(&mut self, alloc: Global, client: Client, request: u64, update: Update) -> Ended
        ensures { Ends (made_next self.old client request (update_view update)) self.old (ended_view result) self.new }
    {
        match Op::new(alloc, update) {
            Ok(op) => self.make_next(alloc, client, request, &op),
            Err(_) => Ended::NoMemory,
        }
    }
}

impl Directory for LocalDirectory {
    ghost use Rattle.local_directory.specs.Allows.{allows};

    type Told = ();

    ghost allows = { allows };

    fn search(
        &mut self,
        alloc: Global,
        named: u64,
        request: &SearchRequest,
    ) -> Result<Found<SearchAnswer>, LookError> {
        search_at(alloc, &self.store.reading(), self.number, named, request)
    }

    fn compare(
        &mut self,
        alloc: Global,
        named: u64,
        request: &CompareRequest,
    ) -> Result<Found<Reply>, LookError> {
        compare_at(alloc, &self.store.reading(), self.number, named, request)
    }

    fn learn(&mut self, _told: ()) {}

    fn role(&mut self, _alloc: Global) -> (Role, ()) {
        (Role::Primary, ())
    }

    fn update(&mut self, alloc: Global, client: Client, number: u64, update: Update) -> Ended {
        match ended_before(alloc, &self.clients, client, number) {
            Some(ended) => ended,
            None => self.make_new(alloc, client, number, update),
        }
    }
}
