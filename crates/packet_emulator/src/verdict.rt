// A request and its reply.
ghost use Rattle.std.specs.Prelude.{◌≡◌, ◌≤◌, [], IsTrue};
ghost use Rattle.vpc_base.specs.Header.{reply_of};
ghost use Rattle.vpc_model.specs.Sound.{is_end};
ghost use Rattle.vpc_model.specs.Connections.{is_header};
ghost use Rattle.vpc_model.specs.Verdict.{alone, hops_after, reply_hops, reply_walk, request_walk, same_end, verdict_of, verdict_of_reply, verdict_of_request};
ghost use Rattle.vpc_model.specs.Walk.{Walk};
ghost use Rattle.vpc_model.specs.declared.outcomes.Outcome.TheVariants as outcomes;
ghost use Rattle.packet_emulator.specs.Memory.{IsLeftBy};

use crate::walks::{Hops, walk};
use appliances::Deciders;
use conn_tracking::SmallConns;
use fabric::Fabric;
use nat_gateway::SmallNats;
use vpc_base::{Header, Label};
use vpc_model::{End, Outcome, Phase, Stop, Verdict, start_place};

/// Whether two ends are one.
pub fn same_end(a: End, b: End) -> bool
    ensures { result ≡ same_end a b }
{
    match (a, b) {
        (End::Interface(i), End::Interface(j)) => i.0 == j.0,
        (End::Internet, End::Internet) => true,
        (End::Far(k), End::Far(l)) => k.0 == l.0,
        _ => false,
    }
}

// Whether a header is the reply of a request.
fn is_reply(k: &Header, h: &Header) -> bool
    ensures { result ≡ is_header k.now (reply_of h.now) }
{
    match h.reply() {
        Some(r) => r == *k,
        None => false,
    }
}

// How a reply's walk ends: it should return to the start as the reply of the request.
fn verdict_of_reply(start: End, h: &Header, outcome: Outcome) -> Verdict
    ensures { result ≡ verdict_of_reply (alone start) h.now outcome }
{
    match outcome {
        Outcome::Stopped(stop) => Verdict::Stopped(Phase::Reply, stop),
        Outcome::Arrived(end, k) => {
            if same_end(end, start) && is_reply(&k, h) {
                Verdict::Through
            } else {
                Verdict::Stopped(Phase::Reply, Stop::WrongReturn(end))
            }
        }
    }
}

// A request from one end of a network to another.
#[derive(Clone, Copy)]
struct Request<'a> {
    fabric: &'a Fabric,
    start: End,
    goal: End,
    header: &'a Header,
}

// What the network remembers of a request.
#[derive(Drop)]
struct Memory {
    conns: SmallConns,
    nats: SmallNats,
}

// What becomes of an answer to a request of which this is remembered.
fn verdict_of_answer(
    asked: &Request,
    deciders: &Deciders,
    answer: Header,
    memory: &mut Memory,
    reply: &mut Hops,
) -> Verdict
    requires goal { IsTrue (is_end asked.now.fabric.now asked.now.goal) }
    requires conns { 64 ≤ memory.old.conns.spare }
    requires nats { 64 ≤ memory.old.nats.spare }
    requires reply { reply.old.items ≡ [] }
    ensures verdict { (request : Walk) → IsLeftBy request memory.old → let a = asked.now in
        let w = reply_walk a.fabric.now deciders.now.appliances a.goal answer request
        in result ≡ verdict_of_reply (alone a.start) a.header.now w.outcome }
    ensures reply { (request : Walk) → IsLeftBy request memory.old → let a = asked.now in
        let w = reply_walk a.fabric.now deciders.now.appliances a.goal answer request
        in reply.new.items ≡ w.hops }
{
    let from = start_place(&asked.goal);
    let outcome = walk(
        asked.fabric,
        deciders,
        from,
        Label::Answer,
        answer,
        &mut memory.conns,
        &mut memory.nats,
        reply,
    );
    verdict_of_reply(asked.start, asked.header, outcome)
}

// What becomes of a request that arrived.
fn verdict_of_arrival(
    asked: &Request,
    deciders: &Deciders,
    end: End,
    k: &Header,
    memory: &mut Memory,
    reply: &mut Hops,
) -> Verdict
    requires goal { IsTrue (is_end asked.now.fabric.now asked.now.goal) }
    requires conns { 64 ≤ memory.old.conns.spare }
    requires nats { 64 ≤ memory.old.nats.spare }
    requires reply { reply.old.items ≡ [] }
    ensures verdict { (request : Walk) → IsLeftBy request memory.old → let a = asked.now in
        result ≡ verdict_of_request a.fabric.now deciders.now.appliances (alone a.start) a.goal a.header.now
        request (outcomes.Arrived end k.now) }
    ensures reply { (request : Walk) → IsLeftBy request memory.old → let a = asked.now in
        reply.new.items ≡ hops_after a.fabric.now deciders.now.appliances a.goal request
        (outcomes.Arrived end k.now) }
{
    if !same_end(end, asked.goal) {
        return Verdict::Stopped(Phase::Request, Stop::WrongPlace(end));
    }
    match k.reply() {
        None => Verdict::Stopped(Phase::Reply, Stop::NoReply(asked.goal)),
        Some(answer) => verdict_of_answer(asked, deciders, answer, memory, reply),
    }
}

/// The verdict of a request from the start to the goal, with the hops of its walk and of its reply's; hops of a
/// phase that isn't walked stay empty. It takes no memory.
pub fn both(
    f: &Fabric,
    deciders: &Deciders,
    start: End,
    goal: End,
    h: Header,
    request: &mut Hops,
    reply: &mut Hops,
) -> Verdict
    requires start { IsTrue (is_end f.now start) }
    requires goal { IsTrue (is_end f.now goal) }
    requires request { request.old.items ≡ [] }
    requires reply { reply.old.items ≡ [] }
    ensures verdict { result ≡ verdict_of f.now deciders.now.appliances start goal h }
    ensures request { let w = request_walk f.now deciders.now.appliances start h
        in request.new.items ≡ w.hops }
    ensures reply { reply.new.items ≡ reply_hops f.now deciders.now.appliances start goal h }
{
    let mut memory = Memory {
        conns: SmallConns::new(),
        nats: SmallNats::new(),
    };
    let from = start_place(&start);
    match walk(
        f,
        deciders,
        from,
        Label::Opening,
        h,
        &mut memory.conns,
        &mut memory.nats,
        request,
    ) {
        Outcome::Stopped(stop) => Verdict::Stopped(Phase::Request, stop),
        Outcome::Arrived(end, k) => {
            let asked = Request {
                fabric: f,
                start,
                goal,
                header: &h,
            };
            verdict_of_arrival(&asked, deciders, end, &k, &mut memory, reply)
        }
    }
}

/// The verdict of a request from the start to the goal: whether it arrives there and its reply returns. It takes
/// no memory.
pub fn round(f: &Fabric, deciders: &Deciders, start: End, goal: End, h: Header) -> Verdict
    requires start { IsTrue (is_end f.now start) }
    requires goal { IsTrue (is_end f.now goal) }
    ensures { result ≡ verdict_of f.now deciders.now.appliances start goal h }
{
    let mut request = Hops::new();
    let mut reply = Hops::new();
    both(f, deciders, start, goal, h, &mut request, &mut reply)
}
