// A port of parts of src/verify.rs of metamath-rs 0.3.9 (dv_map, the tests on it in execute_step), changed (see NOTICE).
// The disjointness test of an assertion: the table of the disjoint pairs of the statement under check, by the numbers of variables,
// and the test of each mandatory pair of the assertion against it.
#![tactic(auto)]

pub mod apart;
pub mod keeps;
pub mod table;
