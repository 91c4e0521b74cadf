// Definitions and laws that every crate may use: searches, counts, sums, maps of bits, tables. There is no code here.
#![tactic(auto)]
