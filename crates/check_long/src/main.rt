// The program `check_proofs` once more, for the gate to run on a frame file of 65,537 bytes: one byte more than it takes.
#![tactic(auto)]

fn main(rt: HostRuntime) {
    reply::answer_input(&rt);
}
