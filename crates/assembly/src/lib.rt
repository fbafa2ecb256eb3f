// Writing a job from loose bodies: document 02, request 2.2. The answer of the code is the job's length. What it is, is defined in
// specs/Written.antt.

#![tactic(auto)]
