//! Outcomes in the order of their tasks, where they lie.
ghost use Rattle.std.specs.Prelude.{◌≡◌, ◌<◌, ◌≤◌, ◌++◌, List, [], length, map, slice_set, vec_capacity};
ghost use Rattle.std.specs.List.{All};
ghost use Rattle.dml_types.specs.Memory.{Memory};
ghost use Rattle.dml_pool.specs.declared.tasks.Outcome.{Outcome};
ghost use Rattle.dml_pool.specs.declared.tasks.Task.{Task};
ghost use Rattle.dml_pool.specs.Slots.{AreFilled, AreOutcomes, AreSlots, HoldAll, all_held, behind, held, number_in};

use crate::Outcome;

/// The outcomes of the tasks that a worker took, in the order of taking. Each can be taken out where it lies.
pub type Outcomes<'a> = Vec<Option<Outcome<'a>>>;

/// Where the outcome of a task lies; nowhere, while that is not known.
pub type Slot<'l, 'a> = Option<&'l mut Option<Outcome<'a>>>;

/// An empty slot for each one that the list has room for.
pub fn empty_slots<'l, 'a>(mut slots: Vec<Slot<'l, 'a>>) -> Vec<Slot<'l, 'a>>
    requires { slots.items ≡ [] }
    ensures count { length result.items ≡ vec_capacity slots.entry }
    ensures empty { AreSlots [] (map behind result.items) }
{
    for _ in 0..slots.capacity() {
        slots.push_reserved(None);
    }
    slots
}

/// Has the empty slot of each task refer to its outcome in the workers' lists. No outcome is moved.
pub fn in_order<'l, 'a>(lists: &'l mut [Outcomes<'a>], slots: &mut [Slot<'l, 'a>])
    requires empty { AreSlots [] (map behind slots.old) }
    requires within { All (λ outcome. outcome.task < length slots.old) (all_held lists.old) }
    ensures count { length slots.new ≡ length slots.old }
    ensures filled { (memory : Memory) (tasks : List Task) → HoldAll memory tasks lists.old → length slots.old ≡ length tasks
        → AreFilled memory tasks (map behind slots.new) }
{
    let lists = lists.iter_mut();
    for list in lists {
        place_list(list, slots);
    }
}

/// Has the slots of a list's tasks refer to their outcomes.
fn place_list<'l, 'a>(list: &'l mut Outcomes<'a>, slots: &mut [Slot<'l, 'a>])
    requires within { All (λ outcome. outcome.task < length slots.old) (held list.old.items) }
    ensures count { length slots.new ≡ length slots.old }
    ensures slots { (before : List Outcome) → AreSlots before (map behind slots.old)
        → AreSlots (before ++ held list.old.items) (map behind slots.new) }
{
    let places = list.iter_mut();
    for place in places {
        if let Some(task) = number_in(place) {
            refer(slots, task as usize, place);
        }
    }
}

/// Has a task's slot refer to a place.
#[inline(always)]
fn refer<'l, 'a>(slots: &mut [Slot<'l, 'a>], task: usize, place: &'l mut Option<Outcome<'a>>)
    requires { task < length slots.old }
    ensures { map behind slots.new ≡ slice_set (map behind slots.old) task place.old }
{
    slots[task] = Some(place);
}

/// The number of the task whose outcome lies here.
fn number_in(place: &Option<Outcome<'_>>) -> Option<u32>
    ensures { result ≡ number_in place.now }
{
    match place {
        Some(outcome) => Some(outcome.task),
        None => None,
    }
}

/// The outcomes in the workers' lists, in the order of their tasks. There is room for as many slots as tasks, and in the
/// list for as many outcomes.
pub fn ordered<'l, 'a>(
    lists: &'l mut [Outcomes<'a>],
    slots: Vec<Slot<'l, 'a>>,
    all: Vec<Outcome<'a>>,
) -> Vec<Outcome<'a>>
    requires within { All (λ outcome. outcome.task < vec_capacity slots) (all_held lists.old) }
    requires slots { slots.items ≡ [] }
    requires empty { all.items ≡ [] }
    requires room { vec_capacity slots ≤ vec_capacity all }
    ensures { (memory : Memory) (tasks : List Task) → HoldAll memory tasks lists.old → vec_capacity slots.entry ≡ length tasks
        → AreOutcomes memory tasks result.items }
{
    let mut slots = empty_slots(slots);
    let row = slots.as_mut_slice();
    in_order(lists, row);
    opened(row, all)
}

/// What slots refer to, behind one another in a list with room for it.
fn opened<'a>(slots: &mut [Slot<'_, 'a>], mut all: Vec<Outcome<'a>>) -> Vec<Outcome<'a>>
    requires empty { all.items ≡ [] }
    requires room { length slots.old ≤ vec_capacity all }
    ensures { result.items ≡ held (map behind slots.old) }
{
    let slots = slots.iter_mut();
    for slot in slots {
        if let Some(outcome) = taken(slot) {
            all.push_reserved(outcome);
        }
    }
    all
}

/// Takes out the outcome that a slot refers to.
fn taken<'a>(slot: &mut Slot<'_, 'a>) -> Option<Outcome<'a>>
    ensures { result ≡ behind slot.old }
{
    slot.take()?.take()
}
