// Writes the long forms of the proofs of the frame file on standard input, of at most 65,536 bytes: for each $p in file order a line `LABEL: TEXT`, or
// `LABEL refused NUMBER PLACE STEPS`; for a bad file `refused NUMBER PLACE`. A longer input is `refused 2 0`.
#![tactic(auto)]

fn main(rt: HostRuntime) {
    long_lines::answer_input(&rt);
}
