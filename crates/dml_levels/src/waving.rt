ghost use Rattle.std.specs.Prelude.{◌≡◌, ◌^◌, ◌<◌, ◌≤◌, ◌++◌, All, IfOk, OnOk, length};
ghost use Rattle.dml_types.specs.Refusal.{need};
ghost use Rattle.dml_types.specs.Conflict as table;
ghost use Rattle.dml_order.specs.Order.{IsOrder};
ghost use Rattle.dml_order.specs.Waves.{AreFull, IsOfOneLevel, Rises, depth, joined, level_waves};
ghost use Rattle.dml_levels.specs.Links.{AreLinked};
ghost use Rattle.dml_levels.specs.Tasks.{IsChunk};
ghost use Rattle.dml_levels.specs.Waves.{IsSmall, IsUnfilled, fits_wave};
ghost use Rattle.dml_levels.specs.Waves as word;

use crate::errors::LevelError;
use crate::filling::{Filling, Wave};
use crate::links::link_places;
use dml_desc::Checked;
use std::alloc::{AllocError, Global};

/// Up to so many levels, the jobs are looked through for each: links take more than twice the memory of a list of
/// places.
const FEW_LEVELS: u64 = 2;

/// The most jobs that are linked.
const MOST_LINKED: usize = 4_294_967_295;

/// The waves of a list of jobs, level by level and in list order inside a level: a wave takes jobs as long as they
/// need at most `staging` bytes of staging together and have at most 131,072 chunks of `chunk` bytes.
///
/// # Errors
/// `NoMemory` where there is no room for the lists.
pub fn waves(
    alloc: Global,
    jobs: &[Checked],
    levels: &[u32],
    staging: u32,
    chunk: u32,
) -> Result<Vec<Wave>, LevelError>
    requires few { length jobs.now ≤ 2 ^ 32 }
    requires needs { All (λ job. need job ≤ staging) jobs.now }
    requires levels { levels.now ≡ table.fenced_levels jobs.now }
    requires chunk { IsChunk chunk }
    ensures cut { IfOk result (λ list. list.items ≡ word.waves jobs.now levels.now staging chunk) }

    // In the subject's own words.
    ensures each_once { IfOk result (λ list.
        IsOrder (table.fenced_clash jobs.now) (length jobs.now) (joined list.items)) }
    ensures level_by_level { IfOk result (λ list. Rises levels.now (joined list.items)) }
    ensures one_level { IfOk result (λ list. All (IsOfOneLevel levels.now) list.items) }
    ensures fit { IfOk result (λ list. All (IsSmall jobs.now staging chunk) list.items) }
    ensures full { IfOk result (λ list. AreFull (fits_wave jobs.now staging chunk) levels.now list.items) }
{
    match find_waves(alloc, jobs, levels, staging, chunk) {
        Ok(waves) => Ok(waves),
        Err(_) => Err(LevelError::NoMemory),
    }
}

/// The waves, or want of memory. The jobs are looked through for each level where there are few levels; else their
/// places are linked by their levels, so that each job is looked at once.
fn find_waves(
    alloc: Global,
    jobs: &[Checked],
    levels: &[u32],
    staging: u32,
    chunk: u32,
) -> Result<Vec<Wave>, AllocError>
    requires few { length jobs.now ≤ 2 ^ 32 }
    requires needs { All (λ job. need job ≤ staging) jobs.now }
    requires levels { length levels.now ≡ length jobs.now }
    requires chunk { IsChunk chunk }
    ensures cut { IfOk result (λ list. list.items ≡ word.waves jobs.now levels.now staging chunk) }
    ensures fit { IfOk result (λ list. All (IsSmall jobs.now staging chunk) list.items) }
{
    let level_count = depth(levels);
    if level_count <= FEW_LEVELS
        || level_count > levels.len() as u64
        || levels.len() > MOST_LINKED
    {
        waves_by_looks(alloc, jobs, levels, level_count, staging, chunk)
    } else {
        let links = link_places(alloc, levels, level_count as usize)?;
        waves_by_links(alloc, jobs, levels, level_count, links, staging, chunk)
    }
}

/// The waves, by a look through all jobs for each level.
fn waves_by_looks(
    alloc: Global,
    jobs: &[Checked],
    levels: &[u32],
    level_count: u64,
    staging: u32,
    chunk: u32,
) -> Result<Vec<Wave>, AllocError>
    requires few { length jobs.now ≤ 2 ^ 32 }
    requires needs { All (λ job. need job ≤ staging) jobs.now }
    requires levels { length levels.now ≡ length jobs.now }
    requires level_count { level_count ≡ depth levels.now }
    requires chunk { IsChunk chunk }
    ensures cut { IfOk result (λ list. list.items ≡ word.waves jobs.now levels.now staging chunk) }
    ensures fit { IfOk result (λ list. All (IsSmall jobs.now staging chunk) list.items) }
{
    let mut waves = Vec::with_capacity(alloc, jobs.len())?;
    let mut filling = Filling::new(Vec::with_capacity(alloc, jobs.len())?);
    for level in 0..level_count {
        cut_level(
            alloc,
            jobs,
            levels,
            level,
            staging,
            chunk,
            &mut filling,
            &mut waves,
        )?;
    }
    Ok(waves)
}

/// The waves, by links from each place to the next of its level.
fn waves_by_links(
    alloc: Global,
    jobs: &[Checked],
    levels: &[u32],
    level_count: u64,
    links: Vec<u32>,
    staging: u32,
    chunk: u32,
) -> Result<Vec<Wave>, AllocError>
    requires few { length jobs.now ≤ 2 ^ 32 }
    requires needs { All (λ job. need job ≤ staging) jobs.now }
    requires levels { length levels.now ≡ length jobs.now }
    requires level_count { level_count ≡ depth levels.now }
    requires chunk { IsChunk chunk }
    requires linked { AreLinked levels.now links.items 0 }
    requires dense { depth levels.now ≤ length levels.now }
    ensures cut { IfOk result (λ list. list.items ≡ word.waves jobs.now levels.now staging chunk) }
    ensures fit { IfOk result (λ list. All (IsSmall jobs.now staging chunk) list.items) }
{
    let mut waves = Vec::with_capacity(alloc, jobs.len())?;
    let mut filling = Filling::new(links);
    for level in 0..level_count {
        cut_linked_level(
            alloc,
            jobs,
            levels,
            level,
            staging,
            chunk,
            &mut filling,
            &mut waves,
        )?;
    }
    Ok(waves)
}

/// How many levels there are.
pub fn depth(levels: &[u32]) -> u64
    ensures { result ≡ depth levels.now }
{
    let mut depth = 0;
    for level in levels {
        depth = depth.max(u64::from(*level) + 1);
    }
    depth
}

/// Appends the waves of a level.
fn cut_level(
    alloc: Global,
    jobs: &[Checked],
    levels: &[u32],
    level: u64,
    staging: u32,
    chunk: u32,
    filling: &mut Filling,
    waves: &mut Vec<Wave>,
) -> Result<(), AllocError>
    requires few { length jobs.now ≤ 2 ^ 32 }
    requires needs { All (λ job. need job ≤ staging) jobs.now }
    requires levels { length levels.now ≡ length jobs.now }
    requires chunk { IsChunk chunk }
    requires empty { IsUnfilled filling.old }
    requires fit { All (IsSmall jobs.now staging chunk) waves.old.items }
    ensures cut { OnOk result (waves.new.items
        ≡ waves.old.items ++ level_waves (fits_wave jobs.now staging chunk) levels.now level) }
    ensures fit { OnOk result (All (IsSmall jobs.now staging chunk) waves.new.items) }
    ensures empty { OnOk result (IsUnfilled filling.new) }
{
    for place in 0..levels.len() {
        if u64::from(levels[place]) == level {
            filling.take(alloc, jobs, place as u32, staging, chunk, waves)?;
        }
    }
    filling.finish(alloc, waves)
}

/// Appends the waves of a level, by the links from each of its places to the next.
fn cut_linked_level(
    alloc: Global,
    jobs: &[Checked],
    levels: &[u32],
    level: u64,
    staging: u32,
    chunk: u32,
    filling: &mut Filling,
    waves: &mut Vec<Wave>,
) -> Result<(), AllocError>
    requires few { length jobs.now ≤ 2 ^ 32 }
    requires needs { All (λ job. need job ≤ staging) jobs.now }
    requires levels { length levels.now ≡ length jobs.now }
    requires chunk { IsChunk chunk }
    requires linked { AreLinked levels.now filling.old.room.links 0 }
    requires dense { depth levels.now ≤ length levels.now }
    requires level { level < depth levels.now }
    requires empty { IsUnfilled filling.old }
    requires fit { All (IsSmall jobs.now staging chunk) waves.old.items }
    ensures cut { OnOk result (waves.new.items
        ≡ waves.old.items ++ level_waves (fits_wave jobs.now staging chunk) levels.now level) }
    ensures fit { OnOk result (All (IsSmall jobs.now staging chunk) waves.new.items) }
    ensures empty { OnOk result (IsUnfilled filling.new) }
    ensures links { OnOk result (filling.new.room.links ≡ filling.old.room.links) }
{
    let mut place = filling.room.link(levels.len() + level as usize);
    while (place as usize) < levels.len() {
        filling.take(alloc, jobs, place, staging, chunk, waves)?;
        place = filling.room.link(place as usize);
    }
    filling.finish(alloc, waves)
}
