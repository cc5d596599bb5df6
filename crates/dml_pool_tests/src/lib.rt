//! Tests of `dml_pool`, by its public calls alone.
#![tactic(auto)]

#[cfg(test)]
mod tests;
