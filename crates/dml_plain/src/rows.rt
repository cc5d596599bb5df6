ghost use Rattle.dml_plain.specs.ApplyRows as applies;
ghost use Rattle.dml_plain.specs.CompareRows as compares;
ghost use Rattle.dml_plain.specs.CreateRows as creates;
ghost use Rattle.dml_plain.specs.FillRows as fills;
ghost use Rattle.dml_plain.specs.FenceRows as fences;
ghost use Rattle.dml_plain.specs.ListRows as lists;
ghost use Rattle.dml_plain.specs.MoveRows as moves;
ghost use Rattle.dml_plain.specs.RefusalRows as refusals;
ghost use Rattle.dml_plain.specs.RestRows as rests;

/// The worked rows of move and dualcast.
pub fn rows_of_moves()
    ensures backward_move_into_absent_page { moves.backward_move_into_absent_page }
    ensures forward_move_over_itself { moves.forward_move_over_itself }
    ensures backward_move_stops_at_page_edge { moves.backward_move_stops_at_page_edge }
    ensures end_of_address_space { moves.end_of_address_space }
    ensures dualcast_refusals { moves.dualcast_refusals }
    ensures dualcast_write_fault { moves.dualcast_write_fault }
    ensures write_over_page_edge { moves.write_over_page_edge }
{}

/// The worked rows of fill, of empty ranges and of absent images.
pub fn rows_of_fills()
    ensures fill_into_absent_page { fills.fill_into_absent_page }
    ensures fill_refusals { fills.fill_refusals }
    ensures empty_ranges { fills.empty_ranges }
    ensures every_page_absent { fills.every_page_absent }
{}

/// The worked rows of compare and compare pattern.
pub fn rows_of_compares()
    ensures mismatch_before_fault { compares.mismatch_before_fault }
    ensures compare_stops_at_page_edge { compares.compare_stops_at_page_edge }
    ensures expected_results { compares.expected_results }
    ensures pattern_expected { compares.pattern_expected }
{}

/// The worked rows of create.
pub fn rows_of_creates()
    ensures delta_record_and_overflow { creates.delta_record_and_overflow }
    ensures overflow_before_write_fault { creates.overflow_before_write_fault }
    ensures delta_stops_at_absent_source { creates.delta_stops_at_absent_source }
{}

/// The worked rows of apply.
pub fn rows_of_applies()
    ensures apply_not_rising { applies.apply_not_rising }
    ensures apply_offset_range { applies.apply_offset_range }
    ensures not_rising_before_fault { applies.not_rising_before_fault }
{}

/// The worked rows of the order of refusals.
pub fn rows_of_refusals()
    ensures dualcast_bits_refused { refusals.dualcast_bits_refused }
    ensures create_size_refused { refusals.create_size_refused }
    ensures create_delta_size_refused { refusals.create_delta_size_refused }
    ensures apply_overlap_refused { refusals.apply_overlap_refused }
    ensures create_overlap_refused { refusals.create_overlap_refused }
    ensures opcode_before_flags { refusals.opcode_before_flags }
{}

/// The worked rows of lists and batches.
pub fn rows_of_lists()
    ensures batch_with_bad_opcode { lists.batch_with_bad_opcode }
    ensures bare_image { lists.bare_image }
    ensures more_lines_than_one_list { lists.more_lines_than_one_list }
    ensures staging_refusal_and_two_waves { lists.staging_refusal_and_two_waves }
    ensures conflict_chain { lists.conflict_chain }
    ensures levels_of_four_jobs { lists.levels_of_four_jobs }
    ensures flags_before_size { lists.flags_before_size }
{}

/// The worked rows of fences in batches.
pub fn rows_of_fences()
    ensures fence_in_batch { fences.fence_in_batch }
    ensures fence_orders { fences.fence_orders }
    ensures fence_abandons { fences.fence_abandons }
    ensures fence_after_false_predicate { fences.fence_after_false_predicate }
    ensures refused_fenced_job { fences.refused_fenced_job }
    ensures refused_fenced_job_after_fault { fences.refused_fenced_job_after_fault }
    ensures levels_behind_a_fence { fences.levels_behind_a_fence }
{}

/// The worked rows of the job that is left after a page fault.
pub fn rows_of_rests()
    ensures resume_a_fill { rests.resume_a_fill }
    ensures resume_a_compare { rests.resume_a_compare }
    ensures resume_a_backward_move { rests.resume_a_backward_move }
    ensures rest_of_moves { rests.rest_of_moves }
{}
