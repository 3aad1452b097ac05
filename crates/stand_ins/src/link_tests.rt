// Links of every kind, run: replies by their bytes, delays, scripts and wait limits.
use crate::script::Cue;
use crate::scripted::{Hasty, Patient};
use links::link::Link;
use links::processor::Processor;
use links::wire::Wire;
use records::command::{Command, Reply};

const COMMAND: Command = Command {
    id: 0x21,
    sid: 5,
    parameter: 100,
};

fn turned_down(code: u16, detail: u32) -> Reply {
    Reply::Nack { code, detail }
}

/// What a wire answers after it received bytes for a command.
fn read_as(bytes: &[u8]) -> Option<Reply> {
    let mut wire = Wire::new();
    let _ = wire.offer(COMMAND);
    let _ = wire.receive(bytes);
    wire.poll()
}

/// Offers a command and answers which poll brought a reply, and which; none where 300 polls brought none.
fn answered<L: Link>(link: &mut L, command: Command) -> Option<(u32, Reply)> {
    let _ = link.offer(command);
    for poll in 1..301u32 {
        if let Some(reply) = link.poll() {
            return Some((poll, reply));
        }
    }
    None
}

#[test]
fn wire_reads_replies_by_length_and_head(rt: HostRuntime) {
    assert_eq!(rt; read_as(&[]), Some(Reply::Odd));
    assert_eq!(rt; read_as(&[0x84]), Some(Reply::Odd));
    assert_eq!(rt; read_as(&[0x00, 0x84]), Some(Reply::Ack));
    assert_eq!(rt; read_as(&[0x00, 0x85]), Some(Reply::Odd));
    assert_eq!(rt; read_as(&[0x00, 0x84, 0x00]), Some(Reply::Odd));
    assert_eq!(rt;
        read_as(&[0x00, 0xF4, 0x00, 0xA7, 0, 0, 0]),
        Some(Reply::Odd)
    );
    assert_eq!(rt;
        read_as(&[0x00, 0xF4, 0x00, 0xA7, 0, 0, 0, 34]),
        Some(turned_down(0xA7, 34))
    );
    assert_eq!(rt;
        read_as(&[0x01, 0xFF, 0x00, 0xA1, 0, 0, 0, 4]),
        Some(turned_down(0xA1, 4))
    );
    assert_eq!(rt;
        read_as(&[0x00, 0xF3, 0x00, 0xA7, 0, 0, 0, 34]),
        Some(Reply::Odd)
    );
    assert_eq!(rt;
        read_as(&[0x00, 0xF4, 0x00, 0xA7, 0, 0, 0, 34, 0]),
        Some(Reply::Odd)
    );
}

#[test]
fn processor_answers_after_its_delay(rt: HostRuntime) {
    let good = Command {
        id: 0x07,
        sid: 0,
        parameter: 0,
    };
    assert_eq!(rt;
        answered(&mut Processor::new(0), good),
        Some((1, Reply::Ack))
    );
    assert_eq!(rt;
        answered(&mut Processor::new(3), good),
        Some((4, Reply::Ack))
    );
    assert_eq!(rt;
        answered(&mut Processor::new(19), COMMAND),
        Some((20, turned_down(0x77, 0x21)))
    );
    assert_eq!(rt;
        answered(
            &mut Processor::new(20),
            Command {
                id: 0x0B,
                sid: 2,
                parameter: 3,
            },
        ),
        Some((21, turned_down(0x78, 2)))
    );
    assert_eq!(rt;
        answered(
            &mut Processor::new(255),
            Command {
                id: 0x0B,
                sid: 0,
                parameter: 3,
            },
        ),
        Some((256, turned_down(0x79, 3)))
    );
}

#[test]
fn script_is_played_in_order(rt: HostRuntime) {
    let ack = Cue {
        polls: 0,
        reply: Reply::Ack,
    };
    let nack = Cue {
        polls: 2,
        reply: Reply::Nack { code: 9, detail: 8 },
    };
    let odd = Cue {
        polls: 200,
        reply: Reply::Odd,
    };
    let mut link = Hasty::new([ack, nack, odd, ack, ack, ack, ack, nack]);
    assert_eq!(rt; answered(&mut link, COMMAND), Some((1, Reply::Ack)));
    assert_eq!(rt; answered(&mut link, COMMAND), Some((3, turned_down(9, 8))));
    assert_eq!(rt; answered(&mut link, COMMAND), Some((201, Reply::Odd)));
    for _ in 0..4u8 {
        assert_eq!(rt; answered(&mut link, COMMAND), Some((1, Reply::Ack)));
    }
    assert_eq!(rt; answered(&mut link, COMMAND), Some((3, turned_down(9, 8))));
    assert_eq!(rt; answered(&mut link, COMMAND), None);
    assert_eq!(rt; Hasty::WAIT_LIMIT, 1);
    assert_eq!(rt; Patient::WAIT_LIMIT, 50);
}
