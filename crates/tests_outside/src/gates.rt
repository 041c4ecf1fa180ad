// The gate that threads share.
use wave_io::gate::{Free, Gate};

fn pass_shared<G: Gate + Send + Sync>(gate: &G) {
    gate.pass(0, 0);
}

#[test]
fn threads_may_share_the_free_gate() {
    pass_shared(&Free);
}
