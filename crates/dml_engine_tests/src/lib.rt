//! Tests of `dml_engine`, by its public calls alone.
#![tactic(auto)]

#[cfg(test)]
mod tests;
