//! Tests of `dml_image`, by its public calls alone.
#![tactic(auto)]

#[cfg(test)]
mod tests;
