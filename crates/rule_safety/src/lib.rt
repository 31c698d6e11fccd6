// What the generators add is never refused. There is no code here: the statements stand in specs/Safe.antt and proofs/Promise.antt.
#![tactic(auto)]
