ghost use Rattle.std.specs.Prelude.{◌≤◌, ◌+◌};
ghost use Rattle.pr_link.specs.Requests.{data_out_of};
ghost use Rattle.pr_link.specs.Replies.{data_in_of, IsWritable};

use super::*;
use pr_words::{Code, Nexus, Sense, Status};
use std::test::*;

// Whether these are a request's bytes before its data-out.
fn asks(request: &Request, tag: u32, bytes: &[u8]) -> bool
    requires { data_out_of request.now ≤ 24 }
{
    let mut head = [0xEE; 32];
    let size = request.write_head(0, tag, &mut head);
    head.starts_with(bytes) && size == bytes.len()
}

// Whether these are a reply's bytes, where its data-in stands in a buffer.
fn answers(reply: &Reply, bytes: &[u8]) -> bool
    requires writable { IsWritable reply.now }
    requires few { data_in_of reply.now ≤ 18 }
{
    let mut out = [0xEE; 34];
    let size = reply.write(0, 5, &mut out);
    out.starts_with(bytes) && size == bytes.len()
}

// Frames from outside, with what they ask for.
#[test]
fn known_requests_are_read_and_written(rt: HostRuntime) {
    let cdb = RawCdb::new(b"\x5f\x01\x05\x00\x00\x00\x00\x00\x18\x00");
    let nexus = Nexus {
        name: 0x11,
        port: 1,
    };
    let login = b"\0\0\0\x14\x01\0\0\0\0\0\0\x01\x01\0\0\x01\0\0\0\0\0\0\0\x11";
    assert!(rt; asks(&Request::Login { version: 1, nexus }, 1, login));
    assert!(rt; Request::read(0x01, &login[12..]) == Request::Login { version: 1, nexus });
    let command =
        b"\0\0\0\x34\x02\0\0\0\0\0\0\x02\x0a\0\0\0\x5f\x01\x05\0\0\0\0\0\x18\0\0\0\0\0\0\0";
    assert!(rt; asks(&Request::Command { cdb, data_out: 24 }, 2, command));
    assert!(rt; Request::read(0x02, &command[12..]) == Request::Command { cdb, data_out: 0 });
    assert!(rt; asks(&Request::Logout, 3, b"\0\0\0\x08\x03\0\0\0\0\0\0\x03"));
    assert!(rt; Request::read(0x03, b"") == Request::Logout);
}

// Frames from outside, with what they answer.
#[test]
fn known_replies_are_read_and_written(rt: HostRuntime) {
    let sense = Sense {
        code: Code::POWER_ON,
        info: None,
    };
    let check =
        b"\0\0\0\x1e\x82\0\0\0\0\0\0\x05\x02\x12\0\0\x70\0\x06\0\0\0\0\x0a\0\0\0\0\x29\0\0\0\0\0";
    let conflict = Reply::Other { status: 0x18 };
    assert!(rt; Reply::of_command(Status::ReservationConflict, None, 0) == conflict);
    assert!(rt;
        answers(
            &Reply::Login { code: 2 },
            b"\0\0\0\x0c\x81\0\0\0\0\0\0\x05\x02\0\0\0"
        )
    );
    assert!(rt;
        answers(
            &Reply::Good { data_in: 3 },
            b"\0\0\0\x0f\x82\0\0\0\0\0\0\x05\0\0\0\0\xEE\xEE\xEE",
        )
    );
    assert!(rt; answers(&Reply::CheckCondition { sense }, check));
    assert!(rt; Reply::read(0x82, &check[12..]) == Ok(Reply::CheckCondition { sense }));
    assert!(rt; answers(&conflict, b"\0\0\0\x0c\x82\0\0\0\0\0\0\x05\x18\0\0\0"));
    assert!(rt; answers(&Reply::Logout, b"\0\0\0\x08\x83\0\0\0\0\0\0\x05"));
    assert!(rt;
        answers(
            &Reply::Reject {
                reason: 4,
                place: 24
            },
            b"\0\0\0\x14\xff\0\0\0\0\0\0\x05\x04\0\0\0\0\0\0\0\0\0\0\x18",
        )
    );
}
