//! Tests of `dml_grammar`, by its public calls alone.
#![tactic(auto)]

#[cfg(test)]
mod tests;
