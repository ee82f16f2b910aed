// How firm the promises are. No code.
#![tactic(auto)]
