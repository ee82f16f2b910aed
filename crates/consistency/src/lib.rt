// What makes a state consistent. No code: specs/ has the clauses, proofs/ their laws. `checker` tests them.
#![tactic(auto)]
