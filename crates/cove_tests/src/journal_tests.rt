use cove_base::{Entry, Event, Exit, Gpn, HartId, HostCall, How, LentEntry, Reply, Status};
use cove_journal::{last_line, line, parse_line};
use cove_text::LineBuf;

#[test]
fn lines_are_written(rt: HostRuntime) {
    let mut out = LineBuf::new();
    let refused = Entry {
        hart: HartId(2),
        event: Event::Call {
            call: HostCall::Convert { base: 16384, n: 12 },
            reply: Reply {
                status: Status::InvalidAddress,
                value: 1,
            },
        },
    };
    line(&LentEntry::of(&refused), &mut out);
    assert_eq!(rt; out.as_slice(), b"2 convert 0x4000 0xc = -5 0x1".as_slice());
    let load = Entry {
        hart: HartId(0),
        event: Event::Load {
            addr: 0x1008,
            how: How::Walk,
            value: 0x6f,
        },
    };
    line(&LentEntry::of(&load), &mut out);
    assert_eq!(rt;
        out.as_slice(),
        b"0 ld 0x1008 walk 000000000000006f".as_slice()
    );
    let fault = Entry {
        hart: HartId(7),
        event: Event::Exit {
            exit: Exit::Fault {
                cause: 21,
                page: Gpn(16),
            },
        },
    };
    line(&LentEntry::of(&fault), &mut out);
    assert_eq!(rt; out.as_slice(), b"7 exit fault 21 0x10000".as_slice());
    last_line(3, true, &mut out);
    assert_eq!(rt; out.as_slice(), b"end 3".as_slice());
}

#[test]
fn lines_are_read(rt: HostRuntime) {
    for (bytes, is_line) in [
        (b"0 gfence = 0 0x0".as_slice(), true),
        (b"7 convert 0x4000 0xc = -5 0x1".as_slice(), true),
        (b"0 ld 0x1008 walk 000000000000006f".as_slice(), true),
        (b"0 ld 0x1008 walk fault".as_slice(), true),
        (b"1 sd 0x8 0x0 hit ok".as_slice(), true),
        (b"1 sd 0x8 0x0 walk fault".as_slice(), true),
        (b"3 fetch walk".as_slice(), true),
        (b"3 exec".as_slice(), true),
        (b"3 exec hit".as_slice(), true),
        (b"0 guest share 0x10000 0x1000 = 0 0x0".as_slice(), true),
        (b"0 guest evidence = -3 0x0".as_slice(), true),
        (b"0 exit kicked".as_slice(), true),
        (b"7 exit fault 21 0x10000".as_slice(), true),
        (b"0 exit trap 2".as_slice(), true),
        (b"".as_slice(), false),
        (b"0 gfence = 0 0x00".as_slice(), false),
        (b"00 gfence = 0 0x0".as_slice(), false),
        (b"0 gfence = 0 0".as_slice(), false),
        (b" 0 gfence = 0 0x0".as_slice(), false),
        (b"0 gfence = 0  0x0".as_slice(), false),
        (b"0 gfence = 0 0x0 ".as_slice(), false),
        (b"0 gfence = 0 0x0\n".as_slice(), false),
        (b"0 gfence = -9 0x0".as_slice(), false),
        (b"8 gfence = 0 0x0".as_slice(), false),
        (b"9 gfence = 0 0x0".as_slice(), false),
        (b"0 gfence 0x1 = 0 0x0".as_slice(), false),
        (b"0 ld 0x1008 hit fault".as_slice(), false),
        (b"0 ld 0x1008 walk 6f".as_slice(), false),
        (b"0 ld 0x1008 walk 000000000000006F".as_slice(), false),
        (b"0 guest evidence = 0 0x0".as_slice(), false),
        (b"0 guest evidence = 0 0x168 00".as_slice(), false),
        (b"0 exit fault 22 0x10000".as_slice(), false),
        (b"0 exit fault 21 0x10008".as_slice(), false),
        (b"0 exit trap 1".as_slice(), false),
        (b"end 3".as_slice(), false),
    ] {
        assert_eq!(rt; parse_line(bytes).is_some(), is_line, "at {bytes:?}");
    }
}

#[test]
fn entries_are_read(rt: HostRuntime) {
    match parse_line(b"7 exit fault 21 0x10000") {
        Some(
            Entry {
                hart,
                event: Event::Exit {
                    exit: Exit::Fault { cause, page },
                },
            },
        ) => {
            assert_eq!(rt; (hart.0, cause, page.0), (7, 21, 16));
        }
        _ => panic!(rt; "no such exit"),
    }
}
