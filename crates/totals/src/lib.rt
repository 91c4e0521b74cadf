// The three numbers of an accepted call's answer: A, B and M.
#![tactic(auto)]

#[derive(Clone, Copy)]
pub struct Totals {
    pub a: u64,
    pub b: u64,
    pub m: u64,
}
