//! The requests of one clerk.

ghost use Rattle.std.specs.Prelude.{◌≡◌, ◌++◌, [], ◌∷◌, map, OnOk};
ghost use Rattle.pb_core.specs.Request.{asked};

use pb_core::no_memory::NoMemory;
use pb_core::request::Request;
use std::alloc::Global;
use std::marker::Model;

/// The requests of one clerk, in the order in which they are to be served.
#[derive(Drop)]
pub(crate) struct Requests {
    list: Vec<Request>,
}

impl Model for Requests {
    ghost use Rattle.std.specs.Prelude.{List, map};
    ghost use Rattle.pb_core.specs.Request.{RequestView, asked};

    ghost Value = { List RequestView };

    ghost view = { λ r. map asked r.list.items };
}

impl Requests {
    /// No requests.
    pub(crate) fn new(alloc: Global) -> Requests
        ensures { result ≡ [] }
    {
        Requests {
            list: Vec::new(alloc),
        }
    }

    /// Puts a request after the others.
    pub(crate) fn push(&mut self, request: Request) -> Result<(), NoMemory>
        ensures { OnOk result (self.new ≡ self.old ++ asked request ∷ []) }
    {
        self.list.push(request)?;
        Ok(())
    }

    /// The requests.
    pub(crate) fn as_slice(&self) -> &[Request]
        ensures { map asked result.now ≡ self.now }
    {
        self.list.as_slice()
    }
}
