// What a report makes of the job that runs. No code: specs/ has the rules of the second half of a tick, proofs/ their laws. `reporter` follows them.
#![tactic(auto)]

use state::{Ending, Job};

// A job after its tick, and how it ended.
#[derive(Clone, Copy)]
pub struct Outcome {
    pub job: Job,
    pub ending: Ending,
}
