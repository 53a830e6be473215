// The walk of a packet with nothing remembered before it.
ghost use Rattle.std.specs.Prelude.{◌≡◌, [], All, IsTrue};
ghost use Rattle.packet_trace.specs.Traced.{status_of, walk_of_event};
ghost use Rattle.vpc_laws.specs.Sound.{EndsWell, IsSoundHop};
ghost use Rattle.vpc_model.specs.Appliances.{appliances_of};
ghost use Rattle.vpc_model.specs.Place.{start_of};
ghost use Rattle.vpc_model.specs.Sound.{is_sound};

use appliances::Deciders;
use command_job::Status;
use conn_tracking::SmallConns;
use fabric::Fabric;
use nat_gateway::SmallNats;
use packet_emulator::{Hops, walk};
use vpc_model::{Event, Outcome, start_place};

/// How a walk's command ends: Yes where the packet arrives, No where it is stopped.
pub fn status_of(outcome: &Outcome) -> Status
    ensures { result ≡ status_of outcome.now }
{
    match outcome {
        Outcome::Arrived(_, _) => Status::Yes,
        Outcome::Stopped(_) => Status::No,
    }
}

/// How the walk of a packet ends, with the described appliances and nothing remembered before it. Its hops are added to none.
/// It takes no memory.
pub fn walk_event(f: &Fabric, deciders: &Deciders, e: &Event, hops: &mut Hops) -> Outcome
    requires start { IsTrue (is_sound f.now (start_of e.now.start)) }
    requires appliances { deciders.now.appliances ≡ appliances_of f.now }
    requires empty { hops.old.items ≡ [] }
    ensures outcome { let w = walk_of_event f.now e.now in result ≡ w.outcome }
    ensures hops { let w = walk_of_event f.now e.now in hops.new.items ≡ w.hops }
    // All of it can be told.
    ensures sound { All (IsSoundHop f.now) hops.new.items }
    ensures end { EndsWell f.now result }
{
    let mut conns = SmallConns::new();
    let mut nats = SmallNats::new();
    // That the network is accepted is a clause of this call.
    let _ = f.network().description();
    walk(
        f,
        deciders,
        start_place(&e.start),
        e.label,
        e.header,
        &mut conns,
        &mut nats,
        hops,
    )
}
