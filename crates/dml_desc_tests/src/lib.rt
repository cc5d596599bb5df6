//! Tests of `dml_desc`, by its public calls alone.
#![tactic(auto)]

#[cfg(test)]
mod encoding_tests;
#[cfg(test)]
mod resuming_tests;
#[cfg(test)]
mod tests;
