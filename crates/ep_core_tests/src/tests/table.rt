//! The table of sessions over whole histories: all of its slots, and sessions that are stopped and whose slots are freed.

use ep_table::{Accepted, StopAnswer, StopTicket, Table};

#[test]
fn the_65th_session_is_refused_until_a_slot_is_freed(rt: HostRuntime) {
    let mut table = Table::new();
    for slot in 0..64u32 {
        let id = u64::from(slot) + 1;
        assert_eq!(rt; table.next(), id);
        assert_eq!(rt; table.accept(), Accepted::Seat { slot, id });
    }
    assert_eq!(rt; table.next(), 65);
    assert_eq!(rt;
        (table.accept(), table.held(), table.next()),
        (Accepted::Full, 64, 65)
    );
}

#[test]
fn a_stopped_session_keeps_its_slot_and_a_freed_slot_is_given_again(rt: HostRuntime) {
    let mut table = Table::new();
    let first = table.accept();
    let ticket = StopTicket {
        id: 1,
        slot: 0,
        conn: 7,
    };
    let stops = [table.stop(1, 7), table.stop(1, 8), table.stop(2, 8)];
    let before = table.held();
    table.free(0);
    let held = [before, table.held()];
    let accepted = [first, table.accept()];
    let seats = [1, 2].map(|id| Accepted::Seat { slot: 0, id });
    let wanted = [
        StopAnswer::Ticket(ticket),
        StopAnswer::NotLive { id: 1 },
        StopAnswer::NotLive { id: 2 },
    ];
    assert_eq!(rt; (accepted, stops, held), (seats, wanted, [1, 0]));
}
