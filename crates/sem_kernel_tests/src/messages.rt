ghost use Rattle.sem_msg.specs.Message.{Fits};

use sem_msg::{
    Act, Call, Code, Detail, Entry, Event, Journal, Message, Outboxes, Reply, Seq, act_number,
};
use std::test::Fail;

// The entry of the last call of a VPE.
fn exited(vpe: u16) -> Entry {
    Entry {
        event: Event {
            kernel: 1,
            act: Act::Call { vpe },
        },
        detail: Detail::Called {
            index: 6,
            call: Call::Exit,
        },
        grant: None,
        cut: None,
        reply: Some(Reply { vpe, code: 0 }),
    }
}

// The answer to a request of a job.
fn done(job: u32) -> Message
    ensures { Fits result }
{
    Message::RevokeDone { job }
}

#[test]
fn acts_and_codes_have_their_numbers(rt: HostRuntime) {
    for (act, number) in [
        (Act::Call { vpe: 9 }, 1),
        (Act::Fetch { from: 9 }, 2),
        (Act::Handle, 3),
        (Act::Upcall { vpe: 9 }, 4),
        (Act::Resume { vpe: 9 }, 5),
        (Act::Flush { to: 9 }, 6),
        (Act::Kill { vpe: 9 }, 7),
    ] {
        assert_eq!(rt; act_number(act), number, "{act:?}");
    }
    for (code, number) in [
        (Code::Ok, 0),
        (Code::NoVpe, 1),
        (Code::Dead, 2),
        (Code::NoCap, 3),
        (Code::Revoking, 4),
        (Code::Refused, 5),
        (Code::Occupied, 6),
        (Code::Numbers, 7),
        (Code::BadKind, 8),
        (Code::Wider, 9),
        (Code::NoService, 10),
        (Code::Gone, 11),
        (Code::Unbound, 12),
        (Code::Rights, 13),
        (Code::Range, 14),
        (Code::SelfExchange, 15),
    ] {
        assert_eq!(rt; code.number(), number, "{code:?}");
    }
}

#[test]
fn a_list_keeps_its_items_in_order(rt: HostRuntime) -> Result<(), Fail> {
    let mut list: Seq<u32> = Seq::new(rt.alloc());
    assert_eq!(rt; (list.len(), list.get(0).copied()), (0, None));
    list.push(30)?;
    list.push(10)?;
    list.push(20)?;
    let copy = list.copy(rt.alloc())?;
    list.push(40)?;
    assert_eq!(rt; list.as_slice(), [30, 10, 20, 40].as_slice());
    assert_eq!(rt;
        (list.len(), list.get(1).copied(), list.get(4).copied()),
        (4, Some(10), None)
    );
    assert_eq!(rt;
        copy.as_slice(),
        [30, 10, 20].as_slice(),
        "before the last was appended"
    );
    Ok(())
}

#[test]
fn a_journal_keeps_its_entries_in_order(rt: HostRuntime) -> Result<(), Fail> {
    let mut journal = Journal::new(rt.alloc());
    assert_eq!(rt; journal.len(), 0);
    journal.room(2)?;
    journal.push(exited(8));
    journal.push(exited(3));
    assert_eq!(rt; journal.len(), 2);
    assert_eq!(rt; journal.get(0), Some(exited(8)));
    assert_eq!(rt; journal.get(1), Some(exited(3)));
    assert_eq!(rt; journal.get(2), None);
    assert_eq!(rt; journal.as_slice(), [exited(8), exited(3)].as_slice());
    Ok(())
}

#[test]
fn messages_for_a_kernel_come_out_as_they_were_sent(rt: HostRuntime) -> Result<(), Fail> {
    let mut outboxes = Outboxes::new(rt.alloc(), 2)?;
    assert_eq!(rt; outboxes.front(1), None);
    outboxes.room(3)?;
    outboxes.send(1, done(70));
    outboxes.send(0, done(71));
    outboxes.send(1, done(72));
    assert_eq!(rt; outboxes.front(0), Some(done(71)));
    assert_eq!(rt; outboxes.front(1), Some(done(70)));
    assert_eq!(rt; outboxes.pop(1), Some(done(70)));
    assert_eq!(rt; outboxes.front(1), Some(done(72)));
    assert_eq!(rt; outboxes.pop(1), Some(done(72)));
    assert_eq!(rt; outboxes.pop(1), None);
    assert_eq!(rt; outboxes.pop(0), Some(done(71)));
    assert_eq!(rt; outboxes.front(0), None);
    Ok(())
}
