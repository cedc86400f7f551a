//! Tests of the small crates that stand on no ring.
#![tactic(auto)]

#[cfg(test)]
mod analysis_tests;
#[cfg(test)]
mod byte_fields_tests;
#[cfg(test)]
mod disk_pages_tests;
#[cfg(test)]
mod flash_directory_tests;
#[cfg(test)]
mod footprints_tests;
#[cfg(test)]
mod line_intake_tests;
#[cfg(test)]
mod lock_table_tests;
#[cfg(test)]
mod log_archive_tests;
#[cfg(test)]
mod log_judge_tests;
#[cfg(test)]
mod lsn_set_tests;
#[cfg(test)]
mod meta_segments_tests;
#[cfg(test)]
mod record_model_tests;
#[cfg(test)]
mod second_chance_tests;
#[cfg(test)]
mod slotted_page_tests;
#[cfg(test)]
mod stage_out_tests;
#[cfg(test)]
mod txn_table_tests;
#[cfg(test)]
mod workload_tests;
