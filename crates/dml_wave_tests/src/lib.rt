//! Tests of `dml_wave`, by its public calls alone.
#![tactic(auto)]

#[cfg(test)]
mod tests;
