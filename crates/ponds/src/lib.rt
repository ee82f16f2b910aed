// The ponds that document 01 works by hand, histories that show what the promise speaks of, and wrong rules under which it breaks, computed on the definitions. No code: specs/ has them, proofs/ the statements.
#![tactic(auto)]
