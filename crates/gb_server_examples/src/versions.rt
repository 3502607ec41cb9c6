// The version in a server's words reaches its nodes: it limits the length of a message there.
use crate::chat::{gives, joined};
use crate::served::prints;
use gb_client::ClientFault;
use gb_session::Head;
use gb_spelling::CommandHead;
use gb_types::NodeId;
use std::alloc::{AllocError, Global};
use std::net::{Net, TcpStream};
use std::rt::HostRuntime;
use std::thread;
use std::time::Clock;

// The requests before the first message, and their replies.
static PREPARATIONS: [(Head, &str, &str); 3] = [
    (Head::Tenant, "7 2 1 4096 1", "ok"),
    (
        Head::Group(CommandHead::Make),
        "7 1 allack 0 1 4096 1",
        "ok",
    ),
    (Head::Group(CommandHead::Open), "7 1", "ok"),
];

// A server of one node: the option of its version, the length of a message, and the reply to the member that says it.
static SAID: [(&str, usize, &str); 4] = [
    ("--version=1", 1_024, "said 1"),
    ("--version=1", 1_025, "refused 7 TooLong"),
    ("--version=2", 1_025, "said 1"),
    ("--version=2", 4_096, "said 1"),
];

// Returns the words of a say whose message has `bytes` bytes.
fn say_line(alloc: Global, bytes: usize) -> Result<String, AllocError> {
    let word = "a".repeat(alloc, bytes)?;
    format!(in alloc; "7 1 {word}")
}

// Returns true if this is the reply to a member that says `bytes` bytes at a server with this base port.
fn is_answered<H: Net<Stream = TcpStream> + Clock>(
    rt: &H,
    alloc: Global,
    base_port: u16,
    bytes: usize,
    want: &str,
) -> Result<bool, ClientFault> {
    let mut member = joined(rt, base_port, NodeId::new(0))?;
    let is_prepared = gives(alloc, &mut member, &PREPARATIONS)?;
    let line = say_line(alloc, bytes)?;
    let is_told = gives(
        alloc,
        &mut member,
        &[(Head::Group(CommandHead::Say), &line, want)],
    )?;
    Ok(is_prepared && is_told)
}

#[test]
fn a_version_bounds_what_is_said(rt: HostRuntime) {
    let alloc = rt.alloc();
    for (version, bytes, want) in &SAID {
        let words = [
            "gb_serve",
            "--nodes=1",
            version,
            "--base-port=29200",
            "--sessions=1",
        ];
        let (is_served, is_answered) = thread::join(
            &rt,
            || prints(
                &rt,
                alloc,
                &words,
                0,
                b"serving 1 nodes from port 29200\nclosed\n",
            ),
            || is_answered(&rt, alloc, 29_200, *bytes, want).unwrap_or(false),
        );
        assert!(rt; is_served && is_answered, "{version}, {bytes} bytes");
    }
}
