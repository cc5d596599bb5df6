ghost use Rattle.dml_desc.specs.RefusalLaws.{RefusedByFirstBroken, AcceptedWhereNoneBroken, OneStatusAtMost};

/// The laws about refusals: a job is answered by the status of the first rule that it breaks, by none where it
/// breaks no rule, and never by two.
pub fn law_of_refusals()
    ensures refused { RefusedByFirstBroken }
    ensures accepted { AcceptedWhereNoneBroken }
    ensures one { OneStatusAtMost }
{}
