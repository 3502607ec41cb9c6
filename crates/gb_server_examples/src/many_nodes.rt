// A server with the most nodes that are allowed: each is asked, and a message of the last node reaches the first.
use crate::chat::{Member, gives, joined, reply};
use crate::messages::{DENIED, OPEN};
use crate::served::{is_told, prints};
use gb_client::ClientFault;
use gb_session::Head;
use gb_spelling::CommandHead;
use gb_types::NodeId;
use std::alloc::Global;
use std::net::{Net, TcpStream};
use std::rt::HostRuntime;
use std::thread;
use std::time::{Clock, Duration};

static WORDS: [&str; 9] = [
    "gb_serve",
    "--nodes",
    "32",
    "--version",
    "2",
    "--base-port",
    "29000",
    "--sessions",
    "1",
];

// The requests at the first and at the last node before the first message, and their replies.
static PREPARATIONS: [(Head, &str, &str); 3] = [
    (Head::Tenant, "7 2 1 5 1", "ok"),
    (Head::Group(CommandHead::Make), "7 1 beb 0,31 1 5 1", "ok"),
    (Head::Group(CommandHead::Open), "7 1", "ok"),
];

static SAY: [(Head, &str, &str); 1] = [(Head::Group(CommandHead::Say), "7 1 hello", "said 1")];

static HEARD: &[u8] = b"log 1 31:1:68656c6c6f";

// Returns true if a member's log has the message within ten seconds.
fn hears<H: Clock>(rt: &H, alloc: Global, member: &mut Member) -> Result<bool, ClientFault> {
    for _ in 0..1_000 {
        let log = reply(alloc, member, Head::Group(CommandHead::Fetch), "7 1 0 16")?;
        if log.as_slice() == HEARD {
            return Ok(true);
        }
        thread::sleep(rt, Duration::from_millis(10));
    }
    Ok(false)
}

// Returns true if the message of a member at the last node reaches a member at the first, and each reply was right.
fn is_heard<H: Net<Stream = TcpStream> + Clock>(
    rt: &H,
    alloc: Global,
) -> Result<bool, ClientFault> {
    let mut first = joined(rt, 29_000, NodeId::new(0))?;
    let mut last = joined(rt, 29_000, NodeId::new(31))?;
    let is_first_ready = gives(alloc, &mut first, &PREPARATIONS)?;
    let is_last_ready = gives(alloc, &mut last, &PREPARATIONS)?;
    let is_said = gives(alloc, &mut last, &SAY)?;
    Ok(is_first_ready && is_last_ready && is_said && hears(rt, alloc, &mut first)?)
}

// Asks each node between these once, one after the other. Returns the number of nodes that answered.
fn ask_others<H: Net<Stream = TcpStream> + Clock>(rt: &H, alloc: Global) -> u16 {
    let mut count: u16 = 0;
    for node in 1..31 {
        if is_told(rt, alloc, 29_064 + node, OPEN, DENIED) {
            count = count.saturating_add(1);
        }
    }
    count
}

#[test]
fn thirty_two_nodes_are_served(rt: HostRuntime) {
    let alloc = rt.alloc();
    let (is_served, (is_heard, answered)) = thread::join(
        &rt,
        || prints(
            &rt,
            alloc,
            &WORDS,
            0,
            b"serving 32 nodes from port 29000\nclosed\n",
        ),
        || (
            is_heard(&rt, alloc).unwrap_or(false),
            ask_others(&rt, alloc),
        ),
    );
    assert!(rt; is_served && is_heard && answered == 30);
}
