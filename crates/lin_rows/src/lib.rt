//! Tests of linear expressions: a table of sums, multiples, negatives, substitutions and values at the edges of 128 bits. The
//! answers don't come from this repository's code: `bench/linear/edge_cases.py` computes them with unlimited integers.
#![tactic(auto)]

#[cfg(test)]
mod rows;
#[cfg(test)]
mod tests;
