//! How much room the lists of a world have.
ghost use Rattle.std.specs.Prelude.{◌≡◌, ◌≤◌, [], false, min, true, vec_capacity};

use crate::lists::SentJobs;
use crate::values::Fetched;
use crate::worlds::MAX_CLIENTS;

/// How many clients' lists are looked at: those of all that a world may have.
const NOTED: usize = MAX_CLIENTS as usize;

/// How many jobs there is room for: in each client's list, and in that of the fetched ones.
#[derive(Clone, Copy)]
pub(crate) struct Rooms {
    sent: [usize; NOTED],
    fetched: usize,
}

impl Rooms {
    /// The room that the lists have.
    pub(crate) fn of(sent: &[SentJobs], fetched: &Vec<Fetched>) -> Rooms
        ensures { result.fetched ≡ vec_capacity fetched.now }
    {
        let mut rooms = [0; NOTED];
        for i in 0..sent.len().min(NOTED) {
            rooms[i] = sent[i].room();
        }
        Rooms {
            sent: rooms,
            fetched: fetched.capacity(),
        }
    }

    /// Notes the room that the lists have, where it is wanted.
    pub(crate) fn note(&mut self, sent: &[SentJobs], fetched: &Vec<Fetched>, is_wanted: bool)
        ensures wanted { is_wanted ≡ true → self.new.fetched ≡ vec_capacity fetched.now }
        ensures same { is_wanted ≡ false → self.new ≡ self.old }
    {
        if is_wanted {
            *self = Rooms::of(sent, fetched);
        }
    }

    /// Gives back what the lists have more than this room, as far as their jobs leave it.
    pub(crate) fn give_back(&self, sent: &mut Vec<SentJobs>, fetched: &mut Vec<Fetched>)
        ensures sent { sent.new.items ≡ sent.old.items }
        ensures fetched { fetched.new.items ≡ fetched.old.items }
        ensures kept { min self.now.fetched (vec_capacity fetched.old) ≤ vec_capacity fetched.new }
        ensures frees { fetched.old.items ≡ [] → self.now.fetched ≡ 0 → vec_capacity fetched.new ≡ 0 }
    {
        self.give_back_sent(sent);
        fetched.shrink_to(self.fetched);
    }

    /// Gives back what the lists of the clients have more than this room, as far as their jobs leave it.
    pub(crate) fn give_back_sent(&self, sent: &mut Vec<SentJobs>)
        ensures { sent.new.items ≡ sent.old.items }
    {
        for i in 0..sent.len().min(NOTED) {
            sent[i].give_back(self.sent[i]);
        }
    }
}
