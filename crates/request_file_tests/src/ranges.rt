use orders::refusal::Cause;
use orders::request::Request;
use orders::row::{CancelRow, EntryRow, Row};

// The number of the refusal that a row gives, as the formats have it, if it gives one.
fn refusal(row: &Row) -> Option<u8> {
    Request::try_from(row).err().map(Cause::number)
}

fn entry(member: u8, side: u8, life: u8, price: u32, quantity: u32, minimum: u32) -> Option<u8> {
    refusal(&Row::Enter(EntryRow {
        member,
        side,
        life,
        price,
        quantity,
        minimum,
    }))
}

#[test]
fn members(rt: HostRuntime) {
    assert_eq!(rt; entry(0, 1, 1, 1, 1, 0), None);
    assert_eq!(rt; entry(63, 2, 2, 100000, 50000, 50000), None);
    assert_eq!(rt; entry(64, 1, 1, 1, 1, 0), Some(5));
    assert_eq!(rt;
        entry(255, 0, 0, 0, 0, 1),
        Some(5),
        "the member comes first"
    );
}

#[test]
fn sides_and_lives(rt: HostRuntime) {
    assert_eq!(rt; entry(1, 0, 1, 1, 1, 0), Some(6));
    assert_eq!(rt; entry(1, 3, 1, 1, 1, 0), Some(6));
    assert_eq!(rt; entry(1, 1, 0, 1, 1, 0), Some(6));
    assert_eq!(rt; entry(1, 1, 3, 1, 1, 0), Some(6));
    assert_eq!(rt;
        entry(1, 2, 3, 0, 0, 1),
        Some(6),
        "the life comes before the price"
    );
}

#[test]
fn numbers(rt: HostRuntime) {
    assert_eq!(rt; entry(1, 1, 1, 0, 1, 0), Some(7));
    assert_eq!(rt; entry(1, 1, 1, 100000, 1, 0), None);
    assert_eq!(rt; entry(1, 1, 1, 100001, 1, 0), Some(7));
    assert_eq!(rt; entry(1, 1, 1, 1, 0, 0), Some(7));
    assert_eq!(rt; entry(1, 1, 1, 1, 50001, 0), Some(7));
    assert_eq!(rt; entry(1, 1, 1, 1, 5, 5), None);
    assert_eq!(rt; entry(1, 1, 1, 1, 5, 6), Some(7));
}

#[test]
fn cancels(rt: HostRuntime) {
    let any = CancelRow {
        member: 63,
        number: 4294967295,
    };
    assert_eq!(rt; refusal(&Row::Withdraw(any)), None);
    let unknown = CancelRow {
        member: 64,
        number: 1,
    };
    assert_eq!(rt; refusal(&Row::Withdraw(unknown)), Some(5));
}
