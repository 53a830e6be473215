// Each command once, on the network of two hosts in one subnet, with its answer.
use crate::devices::{answers, shelf_of};
use std::alloc::Global;
use std::process::Abort;
use std::test::Fail;

/// A command on the network and a second file, and its answer.
#[derive(Clone, Copy)]
pub struct Command {
    pub words: &'static str,
    pub second: &'static str,
    pub code: u8,
    pub text: &'static str,
}

pub const TRACE: &str = "trace o.json open from eni-a tcp 10.0.1.10 10.0.1.20 5000 443";

pub const CHECK: &str = "check o.json second.txt";

pub const REPLAY: &str = "replay o.json second.txt";

pub const DIFF: &str = "diff o.json second.txt from eni-a to eni-b";

pub const CHECK_DIFF: &str = "check o.json o.json second.txt";

pub const ARRIVING: &str = "\
hop 1 out eni-a tcp 10.0.1.10 10.0.1.20 5000 443 by sg-a out 1
hop 2 router subnet-a tcp 10.0.1.10 10.0.1.20 5000 443
hop 3 in eni-b tcp 10.0.1.10 10.0.1.20 5000 443 by sg-b in 1
arrived eni-b
";

pub const BLOCKED: &str = "\
vpc-report 1
query from eni-a to eni-b
box 6-6 10.0.1.10-10.0.1.10 10.0.1.20-10.0.1.20 0-65535 80-80
row 1 request GroupsIn eni-b - 6-6 10.0.1.10-10.0.1.10 10.0.1.20-10.0.1.20 0-65535 80-80
end 1
";

pub const THREE: &str = "\
make 3
pair eni-1 eni-2 reachable tcp 10.1.1.10 10.2.1.10 0 2
pair eni-1 eni-3 reachable tcp 10.1.1.10 10.3.1.10 0 3
pair eni-1 internet blocked
";

pub const COMMANDS: [Command; 8] = [
    Command {
        words: TRACE,
        second: "",
        code: 0,
        text: ARRIVING,
    },
    Command {
        words: "ask o.json from eni-a to eni-b port 80-80",
        second: "",
        code: 1,
        text: BLOCKED,
    },
    Command {
        words: CHECK,
        second: "\
vpc-report 1
query from eni-a to eni-b
box 6-6 10.0.1.10-10.0.1.10 10.0.1.20-10.0.1.20 0-65535 80-80
row 1 reply GroupsIn eni-b - 6-6 10.0.1.10-10.0.1.10 10.0.1.20-10.0.1.20 0-65535 80-80
end 1
",
        code: 1,
        text: "no untrue 1 tcp 10.0.1.10 10.0.1.20 0 80 request GroupsIn eni-b -\n",
    },
    Command {
        words: CHECK,
        second: "\
vpc-reach 1
query from eni-a to eni-b
row 1 eni-a eni-b 6-6 10.0.1.10-10.0.1.10 10.0.1.20-10.0.1.20 0-65535 443-443
end 1
",
        code: 0,
        text: "yes\n",
    },
    Command {
        words: CHECK_DIFF,
        second: "\
vpc-diff 1
query from eni-a to eni-b
row 1 eni-a moved eni-b eni-a 6-6 10.0.1.10-10.0.1.10 10.0.1.20-10.0.1.20 0-65535 443-443
end 1
",
        code: 1,
        text: "no untrue 1 tcp 10.0.1.10 10.0.1.20 0 443 same\n",
    },
    Command {
        words: REPLAY,
        second: "\
answer from eni-b tcp 10.0.1.20 10.0.1.10 443 5000
open from eni-a tcp 10.0.1.10 10.0.1.20 5000 443
answer from eni-b tcp 10.0.1.20 10.0.1.10 443 5000
",
        code: 0,
        text: "\
event 1 stopped GroupsOut eni-b -
event 2 arrived eni-b tcp 10.0.1.10 10.0.1.20 5000 443
event 3 arrived eni-a tcp 10.0.1.20 10.0.1.10 443 5000
",
    },
    Command {
        words: DIFF,
        second: "{}",
        code: 1,
        text: "\
vpc-diff 1
query from eni-a to eni-b
row 1 eni-a closed eni-b request Absent eni-a - 6-6 10.0.1.10-10.0.1.10 10.0.1.20-10.0.1.20 0-65535 443-443
end 1
",
    },
    Command {
        words: "make 3",
        second: "",
        code: 0,
        text: THREE,
    },
];

/// Each command answers about this bundle as about the network.
pub fn all_answer(rt: &impl Abort, alloc: Global, bundle: &str) -> Result<(), Fail> {
    for command in &COMMANDS {
        let mut shelf = shelf_of(alloc, bundle.as_bytes(), command.second.as_bytes(), 0)?;
        let (code, text) = (command.code, command.text);
        answers(rt, alloc, command.words, &mut shelf, code, text)?;
    }
    Ok(())
}
