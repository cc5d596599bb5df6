//! Seats that are known to be of one portal by their type.
ghost use Rattle.dml_portal.specs.Lanes.{IsSeatOf};
ghost use Rattle.dml_portal.specs.Seats as seats;

use crate::berths::Berths;
use dml_portal::{Done, Full, Seat};
use dml_types::{Job, Record};
use std::marker::PhantomData;

/// A client's seat at the portal that `B` names. It can move to another thread.
#[derive(Drop)]
pub struct OwnSeat<B: Berths> {
    seat: Seat,
    of: PhantomData<B>,
    ghost own: { IsSeatOf B.lanes seat },
}

/// Such a seat that submits no more, to be handed in to its server, or to be used again by the next client.
#[derive(Drop)]
pub struct OwnDone<B: Berths> {
    pub(crate) done: Done,
    pub(crate) of: PhantomData<B>,
    ghost own: { IsSeatOf B.lanes (seats.seat_of done) },
}

impl<B: Berths> OwnSeat<B> {
    ghost use Rattle.std.specs.Prelude.{◌≡◌, ◌<◌, [], ◌∷◌, ◌++◌, IfErr, IsOk, IsSome, MatchOption, OnOk, length};
    ghost use mathlib.Core.List.{IsPrefix};
    ghost use Rattle.dml_portal.specs.Seats.{IsSameSeat, client_of, known_records, polled, room_of, submitted};
    ghost use Rattle.dml_seats.specs.Own.{done_in, seat_in};

    /// A seat of the portal.
    pub fn new(seat: Seat) -> OwnSeat<B>
        requires { IsSeatOf B.lanes seat }
        ensures { seat_in result ≡ seat }
    {
        OwnSeat {
            seat,
            of: PhantomData,
        }
    }

    /// The number of the client.
    pub fn client(&self) -> u32
        ensures { result ≡ client_of (seat_in self.now) }
    {
        self.seat.client()
    }

    /// Submits a job, where the ring has room for it. The call takes no memory, and waits for no one.
    ///
    /// # Errors
    /// `Full`, which hands the job back. A seat that has submitted fewer jobs than its ring has room for is not refused.
    pub fn try_submit(&mut self, job: Job) -> Result<(), Full>
        ensures submitted { OnOk result (submitted (seat_in self.new) ≡ submitted (seat_in self.old) ++ job ∷ []) }
        ensures handed_back { IfErr result (λ full. full.job ≡ job) }
        ensures unchanged { IfErr result (λ _. submitted (seat_in self.new) ≡ submitted (seat_in self.old)) }
        ensures has_room { length (submitted (seat_in self.old)) < room_of (seat_in self.old) → IsOk result }
        ensures polled { polled (seat_in self.new) ≡ polled (seat_in self.old) }
        ensures known { known_records (seat_in self.new) ≡ known_records (seat_in self.old) }
        ensures same { IsSameSeat (seat_in self.old) (seat_in self.new) }
    {
        let seat = &mut self.seat;
        seat.try_submit(job)
    }

    /// The next completion record, if one is there; records come in the order of the jobs. The call takes no memory,
    /// and waits for no one.
    pub fn poll(&mut self) -> Option<Record>
        ensures polled { MatchOption result (polled (seat_in self.new) ≡ polled (seat_in self.old)) (λ answer. polled (seat_in self.new) ≡ polled (seat_in self.old) ++ answer ∷ []) }
        ensures found { 0 < length (known_records (seat_in self.old)) → IsSome result }
        ensures known { MatchOption result (known_records (seat_in self.new) ≡ []) (λ answer. IsPrefix (known_records (seat_in self.old)) (answer ∷ known_records (seat_in self.new))) }
        ensures submitted { submitted (seat_in self.new) ≡ submitted (seat_in self.old) }
        ensures same { IsSameSeat (seat_in self.old) (seat_in self.new) }
    {
        let seat = &mut self.seat;
        seat.poll()
    }

    /// Whether the server was dropped, so that nothing is carried out any more. It is a hint, which no clause speaks
    /// of: records that were pushed before can still be polled.
    pub fn is_server_gone(&mut self) -> bool
        ensures submitted { submitted (seat_in self.new) ≡ submitted (seat_in self.old) }
        ensures polled { polled (seat_in self.new) ≡ polled (seat_in self.old) }
        ensures known { IsPrefix (known_records (seat_in self.old)) (known_records (seat_in self.new)) }
        ensures same { IsSameSeat (seat_in self.old) (seat_in self.new) }
    {
        let seat = &mut self.seat;
        seat.is_server_gone()
    }

    /// Ends the submitting. Records that were not polled are given up, unless the seat is used again.
    pub fn finish(self) -> OwnDone<B>
        ensures { seats.seat_of (done_in result) ≡ seat_in self }
    {
        let OwnSeat { seat, .. } = self;
        OwnDone {
            done: seat.finish(),
            of: PhantomData,
        }
    }
}

impl<B: Berths> OwnDone<B> {
    ghost use Rattle.std.specs.Prelude.{◌≡◌};
    ghost use Rattle.dml_seats.specs.Own.{done_in, seat_in};

    /// The same seat, to be used again, as by the next client that comes. Records of the earlier jobs that were not
    /// polled come first.
    pub fn again(self) -> OwnSeat<B>
        ensures { seat_in result ≡ seats.seat_of (done_in self) }
    {
        let OwnDone { done, .. } = self;
        OwnSeat {
            seat: done.again(),
            of: PhantomData,
        }
    }
}
