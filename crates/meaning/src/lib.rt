// What solving means. There is no code here: the statements stand in specs/Words.antt and proofs/Demand.antt.
#![tactic(auto)]
