use crate::limit::*;
use ledger::standing::{MostBought, rank_members};
use ledger::totals::Ledger;
use ranking::finding::first_of;
use ranking::sequence::in_sequence;
use std::test::Fail;

#[test]
fn members_stand_in_sequence(rt: HostRuntime) -> Result<(), Fail> {
    let heap = rt.alloc();
    let mut ledger = Ledger::new();
    assert_eq!(rt; dealt(&rt, heap, &mut ledger, fill(5, 2, 10, 30), 1)?, None);
    assert_eq!(rt; dealt(&rt, heap, &mut ledger, fill(4, 2, 10, 40), 1)?, None);
    assert_eq!(rt; dealt(&rt, heap, &mut ledger, fill(3, 2, 10, 40), 1)?, None);
    let board = rank_members(&ledger);
    assert!(rt; in_sequence(&board, &MostBought), "in sequence");
    match first_of(&board, &MostBought) {
        Some((place, first)) => {
            assert_eq!(rt; (place, first.member), (0, 3), "the first");
            Ok(())
        }
        None => Err(Fail::new("no member")),
    }
}
