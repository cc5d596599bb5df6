//! The server whose seats are known to be of its portal by their type.
ghost use Rattle.dml_portal.specs.Lanes.{AreSameLanes};
ghost use Rattle.dml_portal.specs.Settled.{AreSeatsOf};
ghost use Rattle.dml_portal.specs.LongServers.{lanes_of};

use crate::berths::Berths;
use crate::seats::OwnDone;
use dml_pool::Free;
use dml_portal::{Done, LongServerOver, PortalError};
use std::alloc::Global;
use std::marker::PhantomData;

/// The server of the portal that `B` names, which stays up, and the seats that were handed in to it. Its image may be
/// memory that a caller lends for the server's life.
#[derive(Drop)]
pub struct OwnServerOver<'a, B: Berths, G = Free> {
    pub(crate) long: LongServerOver<'a, G>,
    pub(crate) dones: Vec<Done>,
    pub(crate) of: PhantomData<B>,
    ghost own: { AreSameLanes B.lanes (lanes_of long) },
    ghost seats: { AreSeatsOf (lanes_of long) dones.items },
}

/// Such a server over an image that borrows nothing that ends.
pub type OwnServer<B, G = Free> = OwnServerOver<'static, B, G>;

impl<'a, B: Berths, G> OwnServerOver<'a, B, G> {
    ghost use Rattle.std.specs.Prelude.{◌≡◌, [], ◌∷◌, ◌++◌, IfErr, OnErr, OnOk};
    ghost use Rattle.dml_seats.specs.Own.{done_in, dones_of, long_of};

    /// The server of the portal, to which no seat was handed in.
    pub fn new(alloc: Global, long: LongServerOver<'a, G>) -> OwnServerOver<'a, B, G>
        requires { AreSameLanes B.lanes (lanes_of long) }
        ensures server { long_of result ≡ long.entry }
        ensures none { dones_of result ≡ [] }
    {
        OwnServerOver {
            long,
            dones: Vec::new(alloc),
            of: PhantomData,
        }
    }

    /// Takes a seat in, for the settling.
    ///
    /// # Errors
    /// `NoMemory`, and the seat is handed back.
    pub fn hand_in(&mut self, own: OwnDone<B>) -> Result<(), (OwnDone<B>, PortalError)>
        ensures handed_in { OnOk result (dones_of self.new ≡ dones_of self.old ++ done_in own ∷ []) }
        ensures handed_back { IfErr result (λ refused. done_in refused.0 ≡ done_in own) }
        ensures unchanged { OnErr result (dones_of self.new ≡ dones_of self.old) }
        ensures no_memory { IfErr result (λ refused. refused.1 ≡ PortalError.NoMemory) }
        ensures server { long_of self.new ≡ long_of self.old }
    {
        if self.dones.reserve(1).is_err() {
            return Err((own, PortalError::NoMemory));
        }
        let OwnDone { done, .. } = own;
        self.dones.push_reserved(done);
        Ok(())
    }
}
