//! Tests of `dml_levels`, by its public calls alone.
#![tactic(auto)]

#[cfg(test)]
mod tests;
