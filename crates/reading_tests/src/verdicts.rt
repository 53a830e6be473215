// Stops that differ in one thing.
use vpc_model::{AclNo, Phase, Place, Stop, Verdict, same_stop, same_verdict};

// Whether two stops are the same, and so are verdicts with them.
const STOPS: [(Stop, Stop, bool); 5] = [
    (
        Stop::AclOut(AclNo(1), 100),
        Stop::AclOut(AclNo(1), 100),
        true,
    ),
    (
        Stop::AclOut(AclNo(1), 100),
        Stop::AclOut(AclNo(1), 101),
        false,
    ),
    (
        Stop::AclOut(AclNo(1), 100),
        Stop::AclIn(AclNo(1), 100),
        false,
    ),
    (Stop::PrivateAddress, Stop::PrivateAddress, true),
    (
        Stop::Loop(Place::Internet),
        Stop::TooFar(Place::Internet),
        false,
    ),
];

#[test]
fn stops_and_verdicts(rt: HostRuntime) {
    for (a, b, want) in STOPS {
        assert_eq!(rt; same_stop(&a, &b), want);
        let request = Verdict::Stopped(Phase::Request, a);
        assert_eq!(rt;
            same_verdict(&request, &Verdict::Stopped(Phase::Request, b)),
            want
        );
        assert!(rt; !same_verdict(&request, &Verdict::Stopped(Phase::Reply, b)));
        assert!(rt; !same_verdict(&request, &Verdict::Through));
    }
    assert!(rt; same_verdict(&Verdict::Through, &Verdict::Through));
}
