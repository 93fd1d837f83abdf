ghost use Rattle.std.specs.Prelude.{◌≡◌, ℕ, ◌≤◌, ◌++◌, List, length};
ghost use Rattle.pr_grammar.specs.Bodies.{login_body, command_head};
ghost use Rattle.pr_grammar.specs.Frames.{spelled};
ghost use Rattle.pr_link.specs.Streams.{frame_of};
ghost use Rattle.pr_words.specs.declared.limits.TheConstants.{BODY};

use crate::Frame;
use pr_words::Nexus;

/// The bytes that stand before the body of a frame: its length and its head.
pub fn write_frame(frame: &Frame, head: &mut [u8; 12])
    requires { frame.now.body ≤ BODY }
    ensures { (body : List ℕ) → length body ≡ frame.now.body → head.new ++ body ≡ spelled (frame_of frame.now body) }
{
    let [s0, s1, s2, s3] = (8 + frame.body as u32).to_be_bytes();
    let [l0, l1] = frame.lun.to_be_bytes();
    let [t0, t1, t2, t3] = frame.tag.to_be_bytes();
    *head = [s0, s1, s2, s3, frame.kind, 0, l0, l1, t0, t1, t2, t3];
}

/// The body of a Login: the version of the link's protocol, and the nexus that logs in.
pub fn write_login(version: u8, nexus: Nexus, out: &mut [u8; 12])
    ensures { out.new ≡ login_body version nexus }
{
    let [p0, p1] = nexus.port.to_be_bytes();
    let [n0, n1, n2, n3, n4, n5, n6, n7] = nexus.name.to_be_bytes();
    *out = [version, 0, p0, p1, n0, n1, n2, n3, n4, n5, n6, n7];
}

/// What stands in the body of a Command before its data-out: a CDB of 1 to 16 bytes with its length.
pub fn write_command(cdb: &[u8], out: &mut [u8; 20])
    requires few { length cdb.now ≤ 16 }
    requires some { 1 ≤ length cdb.now }
    ensures { out.new ≡ command_head cdb.now }
{
    *out = [0; 20];
    out[0] = cdb.len() as u8;
    out[4..4 + cdb.len()].copy_from_slice(cdb);
}
