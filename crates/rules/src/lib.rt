// The rules of the book as definitions: soundness, codes, steps, the call, the reads. There is no code here.
#![tactic(auto)]
