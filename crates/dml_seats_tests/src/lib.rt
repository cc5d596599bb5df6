//! Tests of `dml_seats`, by its public calls alone.
#![tactic(auto)]

#[cfg(test)]
mod tests;
