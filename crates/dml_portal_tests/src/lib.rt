//! Tests of `dml_portal`, by its public calls alone.
#![tactic(auto)]

#[cfg(test)]
mod tests;
