//! Worked examples of the definitions of `model_base`: each function is a law without code, and its clauses give the
//! values that the formats ask for.
#![tactic(auto)]

mod bytes;
mod checksums;
mod generators;
mod grouping;
mod histories;
mod log_reads;
mod logs;
mod numbered_logs;
mod one_family;
mod outcomes;
mod recoveries;
mod scripts;
mod stalls;
mod texts;

pub use bytes::{
    batch_without_a_family, batches, batches_in_families, group_of_two_batches, sizes_of_batches,
    varints,
};
pub use checksums::{checksum_of_digits, checksum_of_empty_record};
pub use generators::{first_batch, first_draws, summary};
pub use grouping::{group_of_one, groups_by_options, groups_by_size, groups_of_alone};
pub use histories::{
    flags_of_commits, log_up_to_its_length, logs_of_histories, maps_of_batches, maps_of_families,
};
pub use log_reads::{
    faults_of_reads, records_from_a_sequence, records_kept_before, records_of_commits,
    records_up_to_a_sequence, right_reads, wrong_reads,
};
pub use logs::{end_of_block, log_of_one_batch, long_records, record_of_no_bytes};
pub use numbered_logs::{log_over_an_older_one, numbered_log_of_one_batch, numbered_log_recovered};
pub use one_family::{
    bytes_without_families, checks_without_families, maps_without_families, reads_without_families,
    texts_without_families,
};
pub use outcomes::{
    acknowledged_once_written, committed_in_its_own_stop, failed_write, in_both_families,
    lower_than_full, one_commit, others_stop_ignored, own_slowdown_ignored, read_ahead,
    refused_by_a_later_stop, refused_commit, run_below_what_was_read, stale_read, torn_read,
    waited_out, went_on, written_while_stopped,
};
pub use recoveries::{empty_log_recovered, two_batches_recovered, two_logs_recovered};
pub use scripts::{
    families_in_scripts, faults_of_scripts, one_script, passed_over_lines, records_and_flags,
    whole_scripts,
};
pub use stalls::{histories_of_stalls, refused_at_a_stall, refused_without_a_stall};
pub use texts::{
    digits_of_bytes, lines_of_logs, text_of_families, text_of_one_commit, text_of_refused_commit,
    text_of_two_logs,
};
