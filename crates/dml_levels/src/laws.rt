ghost use Rattle.dml_levels.specs.Laws.{AnyOrder, ClashesWithoutRefusedHold, EffectStands, FrontByItself, FrontThenLeft, JobsCommute, OwnClashesHold, WavesInOrder, WavesThenLeft};
ghost use Rattle.dml_levels.specs.Fences.{BatchesHoldConflicts, FencesOnlyAdd, FencesPart, FencesPartWaves, FrontIsFold, WavesBeforeFence};
ghost use Rattle.dml_levels.specs.Pieces.{AllPiecesAreWaves, OneListIsFold, PiecesAreWaves, WavesMeetFences};

/// The law of conflicts: two jobs that do not conflict give the same image and the same two records in either order,
/// and the effect of each, found before the other is carried out, stands afterwards. What a refused job names does not
/// count. Places of a list that do not clash hold such jobs, also where a no-op stands for each refused one.
pub fn law_of_conflicts()
    ensures commute { JobsCommute }
    ensures effect_stands { EffectStands }
    ensures own_clashes { OwnClashesHold }
    ensures without_refused { ClashesWithoutRefusedHold }
{}

/// The law of order, for any clashes of places that hold the conflicts of a list: each order in which no job goes
/// before an earlier one that clashes with it gives the image and the records of the list, as does the front of such
/// an order followed by the jobs that are left, in list order; and the front by itself gives what its jobs give in
/// list order.
pub fn law_of_order()
    ensures any_order { AnyOrder }
    ensures front_then_left { FrontThenLeft }
    ensures front { FrontByItself }
{}

/// The law of waves: in their order they give the image and the records of the list, as do the first of them,
/// followed by the jobs that are left, in list order. What fits into a wave is of no account.
pub fn law_of_waves()
    ensures in_order { WavesInOrder }
    ensures then_left { WavesThenLeft }
{}

/// The law of fences: they only add clashes, every job before a fenced one stands in a lower level than it and all
/// later ones, and the waves before the first with one of these hold every job before the fence. They give the image
/// and the records of those jobs, carried out by themselves, and leave all other records. In one statement: each fence
/// parts the waves into those of the jobs before it, which give their fold, and those of the jobs from it on, each
/// found by themselves. So the waves of a batch, with a no-op that keeps its fence in the place of each refused job,
/// are those of its pieces, each from one fence up to the next, one piece after another: up to each fence, and in
/// whole. These waves give the image and the records of the batch's jobs without their fences, and those before the
/// first with a job at a fence or behind it give them of the jobs before the fence.
pub fn law_of_fences()
    ensures only_add { FencesOnlyAdd }
    ensures part { FencesPart }
    ensures before { WavesBeforeFence }
    ensures fold { FrontIsFold }
    ensures of_batches { BatchesHoldConflicts }
    ensures waves { FencesPartWaves }
    ensures pieces { PiecesAreWaves }
    ensures whole { AllPiecesAreWaves }
    ensures one_list { OneListIsFold }
    ensures meet { WavesMeetFences }
{}
