// What `matrix` answers.
ghost use Rattle.std.specs.Prelude.{IfOk, length, map, string_bytes};
ghost use Rattle.query_words.specs.Pairs.{IsSide};
ghost use Rattle.reach_matrix.specs.Answered.{IsMatrixAnswered, IsMatrixOf};
ghost use Rattle.reach_matrix.specs.Words.{IsMatrixCount};

use crate::lines::put_rows;
use crate::pairs::probe_of;
use crate::words::ports_asked;
use appliances::Deciders;
use block_report::put_line;
use command_job::{Answer, Job, Status, answer_job, answer_line, refuse_query};
use described_hosts::{host_count, hosts_by_id};
use fabric::Fabric;
use reference_check::Network;
use std::alloc::Global;
use std::mem;
use vpc_base::NoMemory;

// Of how many hosts a matrix tells at most: it has a line for each two.
const MOST_HOSTS: usize = 500;

// The matrix of these ports.
#[derive(Drop)]
struct Mapping {
    ports: (u16, u16),
}

impl Job for Mapping {
    ghost use Rattle.query_words.specs.Pairs.{IsSide};
    ghost use Rattle.reach_matrix.specs.Answered.{IsMapped};

    ghost fits = { λ j d. IsSide j.ports };

    ghost answers = { λ j d. IsMapped d j.ports };

    fn answer_with(
        &self,
        alloc: Global,
        f: &Fabric,
        deciders: &Deciders,
    ) -> Result<Answer, NoMemory> {
        let hosts = hosts_by_id(alloc, f.network())?;
        let mut text = Vec::new(alloc);
        put_line(&mut text, b"matrix")?;
        let mut round = probe_of(f, deciders);
        put_rows(&mut text, f, &mut round, self.ports, hosts.as_slice())?;
        Ok(Answer {
            status: Status::Yes,
            text,
        })
    }
}

// The matrix of these ports, unless there are too many hosts.
fn map_hosts(alloc: Global, network: Network, ports: (u16, u16)) -> Result<Answer, NoMemory>
    requires { IsSide ports }
    ensures { IfOk result (λ a. IsMatrixOf network ports a.status a.text.items) }
{
    if host_count(&network) <= MOST_HOSTS {
        answer_job(alloc, network, &Mapping { ports })
    } else {
        mem::forget(network);
        answer_line(alloc, Status::Query, b"refused matrix TooManyInterfaces")
    }
}

/// Which TCP ports each host of a network reaches of each other one, of those that the words `port A-B` name and else of
/// all: a line for each ordered pair, by their ids. Hosts are the interfaces that belong to no gateway, also those that are
/// attached to nothing; a network with more than 500 is refused.
pub fn matrix(alloc: Global, network: Network, words: &[String]) -> Result<Answer, NoMemory>
    requires { IsMatrixCount (length words.now) }
    ensures { IfOk result (λ a.
        IsMatrixAnswered network (map string_bytes words.now) a.status a.text.items) }
{
    match ports_asked(words) {
        Ok(ports) => map_hosts(alloc, network, ports),
        Err(refusal) => {
            mem::forget(network);
            refuse_query(alloc, &refusal)
        }
    }
}
