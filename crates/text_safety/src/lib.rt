// Which refusals a text can show. There is no code here: the statements stand in specs/Told.antt and proofs/Promise.antt.
#![tactic(auto)]
