//! Tests of `dml_script`, by its public calls alone.
#![tactic(auto)]

#[cfg(test)]
mod tests;
