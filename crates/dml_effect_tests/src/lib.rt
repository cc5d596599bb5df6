//! Tests of `dml_effect`, by its public calls alone.
#![tactic(auto)]

#[cfg(test)]
mod apply_tests;
#[cfg(test)]
mod batches_tests;
#[cfg(test)]
mod compare_tests;
#[cfg(test)]
mod create_tests;
#[cfg(test)]
mod holes_tests;
#[cfg(test)]
mod resume_tests;
#[cfg(test)]
mod segments_tests;
#[cfg(test)]
mod tests;
#[cfg(test)]
mod uses;
