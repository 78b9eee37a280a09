use outside::{AfterGate, CrossGate, Gate, HoldGate, OpenGate};
use run_limits::{MOST_CLIENTS, MOST_COMMANDS};
use std::thread;

// As many looks as no thread needs before it begins.
const MANY: u64 = 100_000_000;

#[test]
fn the_first_commands_of_two_threads_meet(rt: HostRuntime) {
    let gate = CrossGate::new(MANY);
    let shared = &gate;
    let (first, second) = thread::join(
        &rt,
        move || {
            let went = shared.go(1, 1);
            shared.done(1, 1);
            went
        },
        move || {
            let went = shared.go(2, 1);
            shared.done(2, 1);
            went
        },
    );
    assert!(rt; first && second);
    assert!(rt; !gate.late());
}

// A later command, and a third client, wait for nobody.
#[test]
fn a_first_command_alone_is_late(rt: HostRuntime) {
    let gate = CrossGate::new(1_000);
    for (client, number) in [(1, 2), (2, 2), (3, 1)] {
        assert!(rt;
            gate.go(client, number),
            "client {client}, command {number}"
        );
        assert!(rt; !gate.late(), "client {client}, command {number}");
    }
    assert!(rt; gate.go(1, 1));
    assert!(rt; gate.late());
    assert!(rt; gate.go(2, 1));
    assert!(rt; gate.late());
}

#[test]
fn an_open_gate_lets_all_begin(rt: HostRuntime) {
    for (client, number) in [(1, 1), (2, 1), (MOST_CLIENTS, MOST_COMMANDS)] {
        assert!(rt;
            OpenGate.go(client, number),
            "client {client}, command {number}"
        );
        OpenGate.done(client, number);
    }
}

// The held command is sent away twice, all others begin at once.
#[test]
fn a_gate_holds_one_command_for_so_many_turns(rt: HostRuntime) {
    let gate = HoldGate::new(2, 3, 2);
    for (client, number) in [(1, 3), (2, 2), (3, 3), (2, 4)] {
        assert!(rt;
            gate.go(client, number),
            "client {client}, command {number}"
        );
    }
    let first = gate.go(2, 3);
    let second = gate.go(2, 3);
    let third = gate.go(2, 3);
    gate.done(2, 3);
    assert_eq!(rt;
        (first, second, third, gate.asked()),
        (false, false, true, 3)
    );
}

// The number 0 is no client's, and waits only for one reply.
#[test]
fn a_gate_holds_one_command_until_another_has_its_reply(rt: HostRuntime) {
    let gate = AfterGate::new(1, 2);
    for (client, number) in [(1, 1), (1, 2), (2, 1), (0, 2)] {
        assert!(rt;
            gate.go(client, number),
            "client {client}, command {number}"
        );
    }
    let first = gate.go(0, 1);
    for (client, number) in [(1, 1), (2, 2), (1, 3), (0, 1)] {
        gate.done(client, number);
        assert!(rt; !gate.go(0, 1), "client {client}, command {number}");
    }
    gate.done(1, 2);
    assert_eq!(rt; (first, gate.go(0, 1), gate.go(0, 1)), (false, true, true));
}
