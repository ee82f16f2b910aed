// What a table that passes keeps: no job taken on is late, and none is given more than its own. No code: specs/ has the statements, proofs/ their proofs.
#![tactic(auto)]
