// Checks the proofs of the frame file on standard input, of at most 65,536 bytes, and writes `checked N` and a line `LABEL NUMBER PLACE STEPS` for each $p
// in file order; for a bad file `refused NUMBER PLACE`. A longer input is `refused 2 0`.
#![tactic(auto)]

fn main(rt: HostRuntime) {
    reply::answer_input(&rt);
}
