// What `make` answers.
ghost use Rattle.std.specs.List.{range_with_len};
ghost use Rattle.std.specs.Prelude.{◌≡◌, ◌≤◌, ◌++◌, ◌-◌, IfOk, IfSome, OnOk, length, map, string_bytes};
ghost use Rattle.made_network.specs.Made.{host_address, interface_id, made};
ghost use Rattle.network_reach.specs.Reached.{IsQueryIn};
ghost use Rattle.vpc_model.specs.Appliances.{appliances_of};
ghost use Rattle.made_reach.specs.Made.{Adds, ArePairs, IsMade, IsPair, IsSurveyed, found_text, made_count, pair_text, requests_to, to_host, to_internet};

use appliances::Deciders;
use block_report::{put, put_end, put_header_word, put_number_line, put_number_word, put_word};
use command_job::{Answer, Job, Status, answer_job, answer_line};
use fabric::Fabric;
use header_boxes::Box5;
use made_network::made_network;
use network_reach::reach::first_through;
use prefix_text::read_number;
use query_words::{Query, word};
use std::alloc::Global;
use vpc_base::{Header, NoMemory};
use vpc_model::{End, EniNo};

const MOST_HOSTS: u64 = 50;

const FIRST_HOST: u32 = 0x0A01_010A;

// ---- lines

fn put_found(out: &mut Vec<u8>, found: Option<Header>) -> Result<(), NoMemory>
    ensures { OnOk result (out.new.items ≡ out.old.items ++ found_text found) }
{
    match found {
        None => put_word(out, b"blocked"),
        Some(h) => {
            put_word(out, b"reachable")?;
            put_header_word(out, &h)
        }
    }
}

fn put_pair_line(out: &mut Vec<u8>, goal: &[u8], found: Option<Header>) -> Result<(), NoMemory>
    ensures { OnOk result (out.new.items ≡ out.old.items ++ pair_text goal.now found) }
{
    put(out, b"pair eni-1")?;
    put_word(out, goal)?;
    put_found(out, found)?;
    put_end(out)
}

// Whether the first host reaches what the query asks for.
fn put_pair(
    out: &mut Vec<u8>,
    f: &Fabric,
    deciders: &Deciders,
    query: &Query,
    goal: &[u8],
) -> Result<(), NoMemory>
    requires appliances { deciders.now.appliances ≡ appliances_of f.now }
    requires query { IsQueryIn f.now query.now }
    ensures { OnOk result (Adds (IsPair f.now query.now goal.now) out.old.items out.new.items) }
{
    let found = first_through(*out.allocator(), f, deciders, query)?;
    put_pair_line(out, goal, found)
}

// ---- queries

fn requests_to(goal: End, addresses: (u32, u32)) -> Query
    ensures { result ≡ requests_to goal addresses }
{
    Query {
        start: End::Interface(EniNo(0)),
        goal,
        sides: Box5 {
            proto: (6, 6),
            src: (FIRST_HOST, FIRST_HOST),
            dst: addresses,
            p: (0, 65535),
            q: (0, 65535),
        },
        max: 20_000,
    }
}

// The address 10.k.1.10.
fn host_address(k: u8) -> u32
    ensures { result ≡ host_address k }
{
    u32::from_be_bytes([10, k, 1, 10])
}

fn put_host(
    out: &mut Vec<u8>,
    f: &Fabric,
    deciders: &Deciders,
    n: u8,
    k: u8,
) -> Result<(), NoMemory>
    requires made { f.now ≡ made n }
    requires number { (2 ≤ k) × (k ≤ n) }
    requires appliances { deciders.now.appliances ≡ appliances_of f.now }
    ensures { OnOk result (Adds (IsPair f.now (to_host k) (interface_id k)) out.old.items out.new.items) }
{
    let address = host_address(k);
    let query = requests_to(End::Interface(EniNo(u32::from(k) - 1)), (address, address));
    let goal = format!(in *out.allocator(); "eni-{k}")?;
    put_pair(out, f, deciders, &query, goal.as_bytes())
}

fn put_hosts(out: &mut Vec<u8>, f: &Fabric, deciders: &Deciders, n: u8) -> Result<(), NoMemory>
    requires made { f.now ≡ made n }
    requires number { (1 ≤ n) × (n ≤ 50) }
    requires appliances { deciders.now.appliances ≡ appliances_of f.now }
    ensures { OnOk result (Adds (ArePairs f.now (range_with_len 2 (n - 1))) out.old.items out.new.items) }
{
    for k in 2..n + 1 {
        put_host(out, f, deciders, n, k)?;
    }
    Ok(())
}

// The query to 198.51.100.0/24.
fn to_internet() -> Query
    ensures { result ≡ to_internet }
{
    requests_to(End::Internet, (0xC633_6400, 0xC633_64FF))
}

// ---- the survey

// The survey of the network of a number.
#[derive(Drop)]
struct Surveying {
    count: u8,
}

impl Job for Surveying {
    ghost use Rattle.made_reach.specs.Made.{IsMadeOf, IsSurveyed};

    ghost fits = { λ j d. IsMadeOf j.count d };

    ghost answers = { λ j d. IsSurveyed j.count };

    fn answer_with(
        &self,
        alloc: Global,
        f: &Fabric,
        deciders: &Deciders,
    ) -> Result<Answer, NoMemory> {
        let mut text = Vec::new(alloc);
        put_number_line(&mut text, b"make", u128::from(self.count))?;
        put_hosts(&mut text, f, deciders, self.count)?;
        put_pair(&mut text, f, deciders, &to_internet(), b"internet")?;
        Ok(Answer {
            status: Status::Yes,
            text,
        })
    }
}

fn survey(alloc: Global, count: u8) -> Result<Answer, NoMemory>
    requires { (1 ≤ count) × (count ≤ 50) }
    ensures { IfOk result (λ a. IsSurveyed count a.status a.text.items) }
{
    let network = made_network(alloc, u32::from(count))?;
    answer_job(alloc, network, &Surveying { count })
}

fn made_count(text: &str) -> Option<u8>
    ensures value { result ≡ made_count text.now }
    ensures range { IfSome result (λ n. (1 ≤ n) × (n ≤ 50)) }
{
    match read_number(text.as_bytes(), MOST_HOSTS)? {
        0 => None,
        n => Some(n as u8),
    }
}

/// What the first host of a generated network of so many hosts reaches: a line for each other host, and one
/// for the internet.
pub fn make(alloc: Global, words: &[String]) -> Result<Answer, NoMemory>
    requires { 2 ≤ length words.now }
    ensures { IfOk result (λ a. IsMade (map string_bytes words.now) a.status a.text.items) }
{
    match made_count(word(words, 2)) {
        Some(n) => survey(alloc, n),
        None => answer_line(alloc, Status::Query, b"refused number 2"),
    }
}
