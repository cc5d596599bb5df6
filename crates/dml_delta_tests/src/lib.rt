//! Tests of `dml_delta`, by its public calls alone.
#![tactic(auto)]

#[cfg(test)]
mod tests;
