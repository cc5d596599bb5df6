//! Tests of `dml_core`, by its public calls alone.
#![tactic(auto)]

#[cfg(test)]
mod tests;
