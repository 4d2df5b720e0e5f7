//! Two nodes contest generations.
use arbiter_core::{Arbiter, Won};
use i8080_words::{Fault, R};

// Who asks for which generation, the answer, and the winner then.
static CONTESTS: [(u32, u64, R<Won>, u64); 4] = [
    (1, 0, Ok(Won), 0),
    (1, 1, Err(Fault::Lost), 0),
    (2, 1, Ok(Won), 1),
    (1, 0, Ok(Won), 0),
];

// Nobody has won a generation if memory is refused.
#[test]
fn the_first_asker_wins_for_good(rt: HostRuntime) -> R<()> {
    let mut arbiter = Arbiter::new(rt.alloc());
    for (generation, node, answer, winner) in &CONTESTS {
        let answered = arbiter.test_and_set(*generation, *node);
        if answered == Err(Fault::OutOfMemory) {
            assert!(rt; arbiter.winner(*generation) == None);
            return Err(Fault::OutOfMemory);
        }
        assert!(rt; answered == *answer, "node {node} for {generation}");
        assert!(rt; arbiter.winner(*generation) == Some(*winner));
    }
    Ok(())
}
