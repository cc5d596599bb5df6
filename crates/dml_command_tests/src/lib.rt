//! Tests of `dml_command`, by its public calls alone.
#![tactic(auto)]

#[cfg(test)]
mod tests;
