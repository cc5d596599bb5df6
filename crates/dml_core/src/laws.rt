ghost use Rattle.dml_core.specs.Joins.{CommitsAreSteps, KeptMeetJoins};
ghost use Rattle.dml_core.specs.Laws.{CoreKeeps, EachHasItsValues, KeptJoinToStep, OnlyCommitWrites, RunsGoOn, SentIsSubmitted};
ghost use Rattle.dml_core.specs.Rounds.{RoundHasRun, RoundsHaveRuns};
ghost use Rattle.dml_core.specs.Waves.{OneWave, WavesStand};

/// The law of the core, for every list of steps by any number of clients and workers.
///
/// The image is the fold of the committed jobs in fetch order, each answer is the one of the fold at its place, and
/// what was fetched of a client is the front of all that it sent. Only a commit changes the image. Each task of the
/// first wave stands once among those to do, in hand and finished, with its value on the image as it stands; so at a
/// commit each chunk of each job of the wave has its value, and these, joined as the chunks of a job are, are its step:
/// pieces that carry them are what the joins of `dml_effect` ask for, and any other such join gives the same. Clause
/// `commits` says so after every list of allowed steps, and asks nothing of the world that they reach. Two lists of
/// steps, one run after the other, are one.
///
/// Each job that is not committed stands in the waves once, and of two that conflict the earlier in an earlier wave.
/// A plan of jobs of which no two conflict, and which all fit together, is one wave.
pub fn law_of_core()
    ensures keeps { CoreKeeps }
    ensures sent { SentIsSubmitted }
    ensures only_commit_writes { OnlyCommitWrites }
    ensures values { EachHasItsValues }
    ensures meet_joins { KeptMeetJoins }
    ensures joined { KeptJoinToStep }
    ensures commits { CommitsAreSteps }
    ensures go_on { RunsGoOn }
    ensures waves { WavesStand }
    ensures one_wave { OneWave }
{}

/// The law of rounds: the steps of any rounds, one after another, are allowed. Each job of a round is sent and fetched,
/// then for each wave of the plan its tasks are taken and finished and the wave is committed. They leave the image and
/// the answers of the fold, with every fetched job committed.
pub fn law_of_rounds()
    ensures rounds { RoundsHaveRuns }
    ensures round { RoundHasRun }
{}
