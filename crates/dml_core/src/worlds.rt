//! The world, and its calls.
ghost use Rattle.std.specs.Prelude.{◌≡◌, ◌↔◌, ◌⊎◌, ◌<◌, ◌≤◌, [], IfErr, IfOk, None, OnOk, replicate};
ghost use Rattle.dml_types.specs.Limits.{IsValid};
ghost use Rattle.dml_core.specs.Gather.{counted};
ghost use Rattle.dml_core.specs.World.{Reaches, new_world, sent_by};
ghost use Rattle.dml_core.specs.Replay.{StopsAt};

use crate::errors::{StepFault, WorldError};
use crate::lists::{Places, SentJobs};
use crate::stepping::Refusal;
use crate::values::{Fetched, Step, Task};
use dml_arena::Arena;
use dml_image::Image;
use dml_types::{Job, Settings};
use std::alloc::{AllocError, Global};
use std::marker::Model;
use std::mem::size_of;

/// The size of a world. A call of `replay` takes one and gives one back, and above 256 bytes each of these moves is
/// slower.
const _: () = prove!(size_of::<World>() <= 240);

/// The most clients.
pub(crate) const MAX_CLIENTS: u32 = 8;

/// A memory image, what each client sent, and how far the jobs are that were fetched.
#[derive(Drop)]
pub struct World {
    pub(crate) settings: Settings,
    /// How many waves of the plan are committed: the first of them.
    // a `u32`, since the settings leave room for one
    pub(crate) committed: u32,
    pub(crate) image: Image<'static>,
    pub(crate) arena: Arena,
    pub(crate) sent: Vec<SentJobs>,
    pub(crate) fetched: Vec<Fetched>,
    pub(crate) waves: Vec<Places>,
    /// The tasks of the first wave that is not committed; the first of them are taken. In front of these stand the
    /// finished ones, in the order in which they were finished, in place of the first that were taken.
    pub(crate) tasks: Vec<Task>,
    pub(crate) taken: usize,
    pub(crate) hands: Vec<Option<Task>>,
    /// How many tasks are finished.
    pub(crate) finished: usize,
    /// The places of the jobs that the last plan was made of. All that are not committed are among them.
    pub(crate) places: Vec<usize>,
}

impl Model for World {
    ghost use Rattle.std.specs.Prelude.{◌≡◌, ◌+◌, ◌<◌, ◌≤◌, All, drop, length, map, take};
    ghost use Rattle.dml_types.specs.Limits.{IsValid};
    ghost use Rattle.dml_core.specs.Gather.{AreParts, HoldOpen, counts_of, in_hands, jobs_sent};
    ghost use Rattle.dml_core.specs.World.{kept_task};
    ghost use Rattle.dml_core.specs.World as state;

    ghost Value = { state.World };

    ghost view = { λ w. record {
      settings = w.settings;
      image = w.image;
      sent = jobs_sent w.sent.items;
      fetched = w.fetched.items;
      waves = drop w.committed w.waves.items;
      to_do = drop w.taken w.tasks.items;
      hands = w.hands.items;
      finished = map (kept_task w.fetched.items w.image) (take w.finished w.tasks.items);
    } };

    ghost invariant = { λ w. IsValid w.settings × (w.arena.size ≡ w.settings.staging)
        × (w.committed ≤ length w.waves.items) × (w.taken ≤ length w.tasks.items)
        × All (All (λ i. i < length w.fetched.items)) w.waves.items
        × AreParts (counts_of w.sent.items) w.fetched.items
        × HoldOpen w.places.items w.fetched.items (length w.fetched.items) × (length w.waves.items ≤ 1025)
        × (w.finished + in_hands w.hands.items ≤ w.taken) };
}

/// What a world takes memory for before its first step.
#[derive(Drop)]
struct Room {
    arena: Arena,
    sent: Vec<SentJobs>,
    hands: Vec<Option<Task>>,
}

impl Room {
    /// The staging arena, an empty list for each client, and an empty hand for each worker.
    fn new(alloc: Global, settings: &Settings, clients: u32) -> Result<Room, WorldError>
        ensures arena { IfOk result (λ room. room.arena.size ≡ settings.now.staging) }
        ensures sent { IfOk result (λ room. room.sent.items ≡ replicate clients (counted [] 0)) }
        ensures hands { IfOk result (λ room. room.hands.items ≡ replicate settings.now.workers None) }
        ensures error { IfErr result (λ error. error ≡ WorldError.NoMemory) }
    {
        let Ok(arena) = Arena::new(alloc, settings.staging) else {
            return Err(WorldError::NoMemory);
        };
        let Ok(sent) = empty_lists(alloc, clients) else {
            return Err(WorldError::NoMemory);
        };
        let Ok(hands) = empty_hands(alloc, settings.workers) else {
            return Err(WorldError::NoMemory);
        };
        Ok(Room { arena, sent, hands })
    }
}

/// So many empty lists.
#[tactic(auto, using(std::proofs::lemmas::List::replicate_more))]
fn empty_lists(alloc: Global, count: u32) -> Result<Vec<SentJobs>, AllocError>
    ensures { IfOk result (λ lists. lists.items ≡ replicate count (counted [] 0)) }
{
    let mut lists = Vec::new(alloc);
    for k in 0..count {
        let _ = k;
        lists.push(SentJobs::new(alloc))?;
    }
    Ok(lists)
}

/// So many empty hands.
#[tactic(auto, using(std::proofs::lemmas::List::replicate_more))]
fn empty_hands(alloc: Global, count: u32) -> Result<Vec<Option<Task>>, AllocError>
    ensures { IfOk result (λ hands. hands.items ≡ replicate count None) }
{
    let mut hands = Vec::new(alloc);
    for k in 0..count {
        let _ = k;
        hands.push(None)?;
    }
    Ok(hands)
}

impl World {
    /// A world over an image, in which nothing was sent.
    ///
    /// # Errors
    /// `BadSettings` where a setting is out of its limits, `BadClients` unless there are 1 to 8 clients, and `NoMemory`
    /// where there is no room for the staging arena, the clients' lists and the workers' hands. They hand the image
    /// back as it was.
    pub fn new(
        alloc: Global,
        image: Image<'static>,
        settings: Settings,
        clients: u32,
    ) -> Result<World, (Image<'static>, WorldError)>
        ensures world { IfOk result (λ world. world ≡ new_world image.entry settings clients) }
        ensures handed_back { IfErr result (λ refused. refused.0 ≡ image.entry) }
        ensures bad_settings { IfErr result (λ refused. (refused.1 ≡ WorldError.BadSettings) ↔ (IsValid settings → ⊥)) }
        ensures bad_clients { IfErr result (λ refused. refused.1 ≡ WorldError.BadClients →
            (clients < 1) ⊎ (8 < clients)) }
        ensures no_memory { IfErr result (λ refused. refused.1 ≡ WorldError.NoMemory →
            IsValid settings × (1 ≤ clients) × (clients ≤ 8)) }
        ensures limits { OnOk result (IsValid settings × (1 ≤ clients) × (clients ≤ 8)) }
    {
        if !settings.is_valid() {
            return Err((image, WorldError::BadSettings));
        }
        if clients < 1 || clients > MAX_CLIENTS {
            return Err((image, WorldError::BadClients));
        }
        match Room::new(alloc, &settings, clients) {
            Ok(Room { arena, sent, hands }) => Ok(World {
                settings,
                committed: 0,
                image,
                arena,
                sent,
                fetched: Vec::new(alloc),
                waves: Vec::new(alloc),
                tasks: Vec::new(alloc),
                taken: 0,
                hands,
                finished: 0,
                places: Vec::new(alloc),
            }),
            Err(error) => Err((image, error)),
        }
    }

    /// The image.
    pub fn image(&self) -> &Image<'static>
        ensures { result.now ≡ self.now.image }
    {
        &self.image
    }

    /// What a client sent, in its order; nothing for an unknown client.
    pub fn sent(&self, client: u32) -> &[Job]
        ensures { result.now ≡ sent_by self.now client }
    {
        match self.sent.get(client as usize) {
            Some(sent) => sent.as_slice(),
            None => &[],
        }
    }

    /// What was fetched, in that order.
    pub fn fetched(&self) -> &[Fetched]
        ensures { result.now ≡ self.now.fetched }
    {
        self.fetched.as_slice()
    }

    /// Takes the steps one after another.
    ///
    /// # Errors
    /// The place of the first step that is not allowed, or for which the allocator has no memory left, with the world
    /// before it.
    #[tactic(auto, using(crate::proofs::ReplayLemmas::replay_steps))]
    pub fn replay(self, alloc: Global, steps: &[Step]) -> Result<World, (World, StepFault)>
        ensures ok { IfOk result (λ world. Reaches self.entry steps.now world) }
        ensures err { IfErr result (λ stopped. StopsAt self.entry steps.now stopped.0 stopped.1) }
    {
        let mut world = self;
        let mut place = 0;
        while place < steps.len() {
            if let Step::Fetch { client } = steps[place] {
                match world.take_row(alloc, client, steps, place) {
                    Ok(end) => place = end,
                    Err(fault) => return Err((world, fault)),
                }
            } else {
                match world.take_step(alloc, &steps[place]) {
                    Ok(()) => place += 1,
                    Err(Refusal::NotAllowed) => return Err((world, StepFault::NotAllowed(place))),
                    Err(Refusal::NoMemory) => return Err((world, StepFault::NoMemory(place))),
                }
            }
        }
        Ok(world)
    }
}
