// What `flows` answers.
ghost use Rattle.std.specs.Prelude.{◌≡◌, All, IfOk, IsTrue};
ghost use Rattle.flow_check.specs.Answers.{AreFlowsJudged, flows_status, status_by};
ghost use Rattle.flow_check.specs.Flows.{told_by};
ghost use Rattle.flow_check.specs.Texts.{flows_text};
ghost use Rattle.flow_check.specs.Told.{is_told};

use crate::kinds::{FlowAnswer, FlowFault, FlowLine};
use crate::logs::flows;
use crate::texts::{put_counts, put_flow_lines};
use command_job::{Answer, Status, refuse_line};
use fabric::Fabric;
use reference_check::Network;
use std::alloc::Global;
use std::mem;
use vpc_base::NoMemory;

fn status_by(differing: &[FlowLine]) -> Status
    ensures { result ≡ status_by differing.now }
{
    match differing {
        [] => Status::Yes,
        _ => Status::No,
    }
}

fn print_flows(alloc: Global, n: &Network, flows: &FlowAnswer) -> Result<Vec<u8>, NoMemory>
    requires { All (λ l. IsTrue (is_told n.now l.kind)) flows.now.differing.items }
    ensures { IfOk result (λ text. text.items ≡ flows_text n.now (told_by flows.now)) }
{
    let differing = flows.differing.as_slice();
    let mut text = Vec::new(alloc);
    put_flow_lines(&mut text, n, differing)?;
    put_counts(&mut text, differing.len() as u64, &flows.counts)?;
    Ok(text)
}

fn answer_flows(alloc: Global, n: &Network, flows: &FlowAnswer) -> Result<Answer, NoMemory>
    requires { All (λ l. IsTrue (is_told n.now l.kind)) flows.now.differing.items }
    ensures status { IfOk result (λ a. a.status ≡ flows_status (told_by flows.now)) }
    ensures text { IfOk result (λ a. a.text.items ≡ flows_text n.now (told_by flows.now)) }
{
    let text = print_flows(alloc, n, flows)?;
    Ok(Answer {
        status: status_by(flows.differing.as_slice()),
        text,
    })
}

fn judge_in(alloc: Global, f: &Fabric, bytes: &[u8]) -> Result<Answer, NoMemory>
    ensures { IfOk result (λ a. AreFlowsJudged f.now bytes.now a.status a.text.items) }
{
    match flows(alloc, f, bytes) {
        Ok(answer) => answer_flows(alloc, f.network(), &answer),
        Err(FlowFault::BadLine(number)) => refuse_line(alloc, b"log", number),
        Err(FlowFault::Memory) => Err(NoMemory),
    }
}

/// What `flows` answers to the bytes of a flow log in a network.
pub fn judge_flows(alloc: Global, network: Network, bytes: &[u8]) -> Result<Answer, NoMemory>
    ensures { IfOk result (λ a. AreFlowsJudged network bytes.now a.status a.text.items) }
{
    match Fabric::of(alloc, network) {
        Ok(fabric) => {
            let answer = judge_in(alloc, &fabric, bytes);
            // The process ends with its answer.
            mem::forget(fabric);
            answer
        }
        Err(no_memory) => Err(no_memory),
    }
}
