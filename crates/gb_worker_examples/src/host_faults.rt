// The refusals of a host other than out of memory.
use crate::asking::{Unanswered, call};
use crate::day::day_of_two;
use crate::roles::Role;
use crate::scenes::{Refused, Scene, whole};
use gb_host::{Host, Open, Seat, Tapes};
use gb_node::NodeEvent;
use gb_port::RingPort;
use gb_types::{NodeId, Version};
use std::rt::HostRuntime;
use std::sync::Wait;

/// Calls node 2, which a host of two nodes does not have, from a seat. Returns true if the call is refused with `NoNode`, and the
/// seat's list has no call.
pub fn is_refused<L: Tapes, R: Wait>(rt: &R, host: &Host<L>, seat: &mut Seat<L>) -> bool {
    let node = NodeId { number: 2 };
    let is_missing = match call(rt, host, seat, node, NodeEvent::Tick, &mut Open) {
        Err(Unanswered::NoNode) => true,
        _ => false,
    };
    is_missing && seat.mine().is_empty()
}

#[test]
fn a_missing_node_and_a_missing_seat_are_refused(rt: HostRuntime) {
    let left = day_of_two(&rt, rt.alloc(), true, Role::Lost, Role::Lost).expect(&rt, "a day");
    let mut scene: Scene<RingPort> = Scene::LostSeat;
    let is_foreign = match whole(&rt, rt.alloc(), Version::One, true, 2, &mut scene) {
        Err(Refused::ForeignSeat) => true,
        _ => false,
    };
    assert!(rt; left.counts == [1, 1, 0, 0] && is_foreign);
}
