//! Tests of `dml_scan`, by its public calls alone.
#![tactic(auto)]

#[cfg(test)]
mod tests;
