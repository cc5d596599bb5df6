//! Tests of `dml_direct`, by its public calls alone.
#![tactic(auto)]

#[cfg(test)]
mod tests;
