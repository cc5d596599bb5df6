ghost use Rattle.std.specs.Prelude.{◌≡◌, ◌+◌, ◌≤◌, length};
ghost use Rattle.rtrb.specs.Ring.{known_free, producer_capacity, sent};

use crate::errors::Full;
use dml_types::{Job, Record};
use rtrb::{Consumer, Producer, PushError};

/// A client's place at a portal: it submits the client's jobs, and polls their records. It can move to another thread.
#[derive(Drop)]
pub struct Seat {
    pub(crate) client: u32,
    pub(crate) jobs: Producer<Job>,
    pub(crate) records: Consumer<Record>,
    ghost counted: { producer_capacity jobs ≤ length (sent jobs) + known_free jobs },
}

/// A seat that submits no more, to be handed in when the portal is settled, or to be used again by the next client.
#[derive(Drop)]
pub struct Done {
    pub(crate) seat: Seat,
}

impl Seat {
    ghost use Rattle.std.specs.Prelude.{◌≡◌, ◌<◌, [], ◌∷◌, ◌++◌, IfErr, IsOk, IsSome, MatchOption, OnOk, length};
    ghost use mathlib.Core.List.{IsPrefix};
    ghost use Rattle.rtrb.specs.Ring.{known_free, producer_capacity, received, sent};
    ghost use Rattle.dml_portal.specs.Seats.{IsSameSeat, client_of, known_records, polled, room_of, seat_of, submitted};

    /// The seat of a client, over its ends of new rings.
    pub(crate) fn new(client: u32, jobs: Producer<Job>, records: Consumer<Record>) -> Seat
        requires { known_free jobs ≡ producer_capacity jobs }
        ensures { (result.client ≡ client) × (result.jobs ≡ jobs) × (result.records ≡ records) }
    {
        Seat {
            client,
            jobs,
            records,
        }
    }

    /// The number of the client.
    pub fn client(&self) -> u32
        ensures { result ≡ client_of self.now }
    {
        self.client
    }

    /// Submits a job, where the ring has room for it. The call takes no memory, and waits for no one.
    ///
    /// # Errors
    /// `Full`, which hands the job back. A seat that has submitted fewer jobs than its ring has room for is not refused.
    pub fn try_submit(&mut self, job: Job) -> Result<(), Full>
        ensures submitted { OnOk result (submitted self.new ≡ submitted self.old ++ job ∷ []) }
        ensures handed_back { IfErr result (λ full. full.job ≡ job) }
        ensures unchanged { IfErr result (λ _. submitted self.new ≡ submitted self.old) }
        ensures has_room { length (submitted self.old) < room_of self.old → IsOk result }
        ensures polled { polled self.new ≡ polled self.old }
        ensures known { known_records self.new ≡ known_records self.old }
        ensures same { IsSameSeat self.old self.new }
    {
        match self.jobs.push(job) {
            Ok(()) => Ok(()),
            Err(PushError::Full(job)) => Err(Full { job }),
        }
    }

    /// The next completion record, if one is there; records come in the order of the jobs. The call takes no memory,
    /// and waits for no one.
    pub fn poll(&mut self) -> Option<Record>
        ensures polled { MatchOption result (polled self.new ≡ polled self.old) (λ answer. polled self.new ≡ polled self.old ++ answer ∷ []) }
        ensures found { 0 < length (known_records self.old) → IsSome result }
        ensures known { MatchOption result (known_records self.new ≡ []) (λ answer. IsPrefix (known_records self.old) (answer ∷ known_records self.new)) }
        ensures submitted { submitted self.new ≡ submitted self.old }
        ensures same { IsSameSeat self.old self.new }
    {
        self.records.pop().ok()
    }

    /// Whether the server was dropped, so that nothing is carried out any more. It is a hint, which no clause speaks
    /// of: records that were pushed before can still be polled.
    pub fn is_server_gone(&mut self) -> bool
        ensures submitted { submitted self.new ≡ submitted self.old }
        ensures polled { polled self.new ≡ polled self.old }
        ensures known { IsPrefix (known_records self.old) (known_records self.new) }
        ensures same { IsSameSeat self.old self.new }
    {
        self.records.is_abandoned()
    }

    /// Ends the submitting. Records that were not polled are given up, unless the seat is used again.
    pub fn finish(self) -> Done
        ensures { seat_of result ≡ self }
    {
        Done { seat: self }
    }
}

impl Done {
    ghost use Rattle.dml_portal.specs.Seats.{seat_of};

    /// The same seat, to be used again, as by the next client that comes. Records of the earlier jobs that were not
    /// polled come first.
    pub fn again(self) -> Seat
        ensures { result ≡ seat_of self }
    {
        self.seat
    }
}
