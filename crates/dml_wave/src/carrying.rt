//! A wave of jobs, from its tasks to its records.
ghost use Rattle.std.specs.Prelude.{◌≡◌, ◌<◌, ◌≤◌, [], length, vec_capacity, IfOk, OnOk, OnErr};
ghost use Rattle.std.specs.List.{All, AllZip};
ghost use Rattle.dml_types.specs.Limits.{IsValid};
ghost use Rattle.dml_levels.specs.Tasks.{IsChunk};
ghost use Rattle.dml_levels.specs.Waves.{IsSmall};
ghost use Rattle.dml_wave.specs.Effects.{HoldOutcomes, IsEffectAt};
ghost use Rattle.dml_wave.specs.Waves.{AreApart, HasRun, busy};

use crate::WaveError;
use crate::committing::commit_all;
use crate::cutting::cut_tasks;
use crate::effects::{JobEffect, effects_of};
use dml_arena::{Arena, Region};
use dml_desc::Checked;
use dml_image::Image;
use dml_pool::{Gate, Outcomes, PoolError, Slot, empty_slots, in_order, run_wave_into_lists};
use dml_types::{Record, Settings};
use std::alloc::{AllocError, Global};
use std::sync::Wait;
use std::thread::Threads;

impl From<AllocError> for WaveError {
    fn from(_refused: AllocError) -> WaveError {
        WaveError::NoMemory
    }
}

impl From<PoolError> for WaveError {
    fn from(_refused: PoolError) -> WaveError {
        WaveError::NoMemory
    }
}

/// Carries out the jobs at a wave's places on at most `workers` threads, this one among them, and writes the record of
/// each at its place. A no-op is passed over: its record stays as it is. Fences are not looked at.
///
/// All effects are found on the image as it stands, and then committed in the wave's order.
///
/// # Errors
///
/// `NoMemory` where the allocator has no memory left. Nothing is changed. All memory but that of the threads is taken
/// before the first worker starts.
pub fn carry_out_wave<R: Threads + Wait + Sync, G: Gate + Sync>(
    rt: &R,
    alloc: Global,
    gate: &G,
    settings: &Settings,
    image: &mut Image,
    arena: &mut Arena,
    jobs: &[Checked],
    wave: &[u32],
    records: &mut [Record],
) -> Result<(), WaveError>
    requires valid { IsValid settings.now }
    requires staging { settings.now.staging ≤ arena.old.size }
    requires records { length records.old ≡ length jobs.now }
    requires places { All (λ i. i < length jobs.now) wave.now }
    requires apart { AreApart jobs.now wave.now }
    requires small { IsSmall jobs.now settings.now.staging settings.now.chunk wave.now }
    ensures done { OnOk result (HasRun settings.now jobs.now wave.now image.old records.old image.new records.new) }
    ensures refused { OnErr result ((image.new ≡ image.old) × (records.new ≡ records.old)) }
    ensures arena { arena.new ≡ arena.old }
{
    let _pages = image.pages(); // its contract says that the image is whole
    let room = arena.open();
    let effects = find_effects(rt, alloc, gate, settings, image, jobs, wave, room)?;
    commit_all(image, effects, records);
    Ok(())
}

/// The effects of the jobs at a wave's places on the image as it stands, found on at most `workers` threads.
///
/// # Errors
///
/// `NoMemory` where the allocator has no memory left.
fn find_effects<'a, R: Threads + Wait + Sync, G: Gate + Sync>(
    rt: &R,
    alloc: Global,
    gate: &G,
    settings: &Settings,
    image: &Image,
    jobs: &[Checked],
    wave: &[u32],
    room: Region<'a>,
) -> Result<Vec<JobEffect<'a>>, WaveError>
    requires valid { IsValid settings.now }
    requires empty { room.bytes ≡ [] }
    requires staging { settings.now.staging ≤ room.room }
    requires places { All (λ i. i < length jobs.now) wave.now }
    requires small { IsSmall jobs.now settings.now.staging settings.now.chunk wave.now }
    ensures { IfOk result (λ effects. AllZip (IsEffectAt image.now jobs.now) (busy jobs.now wave.now) effects.items) }
{
    let effects = Vec::with_capacity(alloc, wave.len())?;
    let queue = cut_tasks(alloc, jobs, wave, settings.chunk, room)?;
    let slots = Vec::with_capacity(alloc, queue.len() as usize)?;
    let mut lists = run_wave_into_lists(rt, alloc, image, queue, settings.workers, gate)?;
    Ok(join_lists(
        image,
        jobs,
        wave,
        settings.chunk,
        lists.as_mut_slice(),
        slots,
        effects,
    ))
}

/// The effects of the jobs at a wave's places, whose tasks' outcomes lie in lists. There is room for a slot for each
/// task, and for the effects.
fn join_lists<'l, 'a>(
    image: &Image,
    jobs: &[Checked],
    wave: &[u32],
    chunk: u32,
    lists: &'l mut [Outcomes<'a>],
    slots: Vec<Slot<'l, 'a>>,
    effects: Vec<JobEffect<'a>>,
) -> Vec<JobEffect<'a>>
    requires places { All (λ i. i < length jobs.now) wave.now }
    requires chunk { IsChunk chunk }
    requires slots { slots.items ≡ [] }
    requires outcomes { HoldOutcomes image.now jobs.now chunk wave.now (vec_capacity slots) lists.old }
    requires empty { effects.items ≡ [] }
    requires room { length wave.now ≤ vec_capacity effects }
    ensures { AllZip (IsEffectAt image.now jobs.now) (busy jobs.now wave.now) result.items }
{
    let mut slots = empty_slots(slots);
    let row = slots.as_mut_slice();
    in_order(lists, row);
    effects_of(image, jobs, wave, chunk, row, effects)
}
