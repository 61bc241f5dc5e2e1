use placement::{Plan, Policy, place};
use sim_base::{ActorId, ManagerId, Name};

#[test]
fn by_turns_and_by_name(rt: HostRuntime) {
    // number, name, and the manager of three in turn and by name
    for (id, name, in_turn, by_name) in [
        (1, "m", 0, 1),
        (2, "ann", 1, 2),
        (3, "bob", 2, 1),
        (4, "a", 0, 1),
    ] {
        let name = Name::read(name.as_bytes()).expect(&rt, "a name");
        assert!(rt; id >= 1);
        assert_eq!(rt;
            place(Policy::RoundRobin, ActorId(id), &name, &[7, 0, 7]),
            ManagerId(in_turn)
        );
        assert_eq!(rt;
            place(Policy::ByName, ActorId(id), &name, &[0, 0, 0]),
            ManagerId(by_name)
        );
    }
}

#[test]
fn by_load(rt: HostRuntime) {
    let name = Name::born("spark", ActorId(9));
    let cases: [(&[u32], u32); 5] = [
        (&[5], 0),
        (&[2, 1, 1], 1),
        (&[0, 0, 0], 0),
        (&[3, 2, 4, 2], 1),
        (&[3, 2, 1], 2),
    ];
    for (loads, want) in cases {
        assert!(rt; loads.len() >= 1 && loads.len() <= 16);
        assert_eq!(rt;
            place(Policy::LeastLoaded, ActorId(9), &name, loads),
            ManagerId(want)
        );
    }
}

#[test]
fn one_of_each(rt: HostRuntime) {
    let plan = Plan::single();
    assert_eq!(rt; (plan.workers, plan.managers, plan.fanout), (1, 1, 2));
    assert_eq!(rt; plan.policy, Policy::RoundRobin);
}
