// A server can be reached at the address 127.0.0.1 only.
use crate::clients::{address, end_server, figure, figure_at_last, joined, serves};
use gb_client::ClientFault;
use gb_types::NodeId;
use std::alloc::Global;
use std::net::{Ipv4Addr, Net, SocketAddr, SocketAddrV4, TcpListener, TcpStream, UdpSocket};
use std::rt::HostRuntime;
use std::thread;
use std::time::Clock;

static WORDS: [&str; 5] = ["gb_serve", "--nodes=2", "--base-port=25400", "--tick", "20"];

// Returns a port of another loopback address of this machine.
fn other_address(port: u16) -> SocketAddr {
    SocketAddr::V4(SocketAddrV4::new(Ipv4Addr::new(127, 0, 0, 2), port))
}

// Sends datagrams that are no packets to an address. Returns true if the system took each.
fn send_to<H: Net>(rt: &H, to: SocketAddr, count: u32) -> bool {
    let Ok(socket) = UdpSocket::bind(rt, address(0)) else {
        return false;
    };
    let mut are_taken = true;
    for _ in 0..count {
        are_taken = socket.send_to(b"no packet", to).is_ok() && are_taken;
    }
    are_taken
}

// Returns true if no server listens for sessions at the other address.
fn is_refused<H: Net<Stream = TcpStream>>(rt: &H, port: u16) -> bool {
    TcpStream::connect(rt, other_address(port)).is_err()
}

// Returns the numbers of strangers' datagrams that node 1 has counted after ten were sent to the other address, and after one was sent to
// its own.
fn come<H: Net<Stream = TcpStream> + Clock>(
    rt: &H,
    alloc: Global,
) -> Result<[u64; 2], ClientFault> {
    let mut member = joined(rt, 25_400, NodeId::new(1))?;
    let _ = send_to(rt, other_address(25_401), 10);
    let before = figure(alloc, &mut member, b"strangers=")?;
    if !send_to(rt, address(25_401), 1) {
        return Err(ClientFault::Connection);
    }
    let after = figure_at_last(rt, alloc, &mut member, b"strangers=", 1)?;
    Ok([before, after])
}

#[test]
fn a_server_has_one_address(rt: HostRuntime) {
    let alloc = rt.alloc();
    let (is_served, (datagrams, are_refused, is_over)) = thread::join(
        &rt,
        || serves(
            &rt,
            alloc,
            &WORDS,
            b"serving 2 nodes from port 25400\nclosed\n",
        ),
        || (
            come(&rt, alloc),
            [is_refused(&rt, 25_464), is_refused(&rt, 25_465)],
            end_server(&rt, alloc, 25_400),
        ),
    );
    assert!(rt; is_served && is_over && datagrams == Ok([0, 1]) && are_refused == [true; 2]);
}
