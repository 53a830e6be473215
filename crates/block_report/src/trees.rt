// Reports whose boxes are the leaves of a cut tree.
ghost use Rattle.std.specs.Prelude.{◌≡◌, ◌++◌, ◌∷◌, [], All, IfOk, IsTrue, OnOk};
ghost use Rattle.block_report.specs.Reports.{box_line, ends_line};
ghost use Rattle.block_report.specs.Trees.{AreTreeIds, NodeHasIds, NodeHasText, NodesHaveText, cut_line, leaf_line, node_line, node_lines, number_text, side_name, told_node, told_nodes, tree_text};
ghost use Rattle.block_report.specs.Walks.{told_text};
ghost use Rattle.block_report.specs.Words.{word};
ghost use Rattle.ordered_cover.specs.Trees.{leaf_count};
ghost use Rattle.vpc_model.specs.Id.{is_id};
ghost use Rattle.vpc_model.specs.Sound.{has_text, is_end};
ghost use Rattle.vpc_model.specs.Told.{told_stop};

use crate::places::end_id;
use crate::reports::{put_box_line, put_ends_line};
use crate::walks::put_told;
use crate::words::{
    put, put_addr_word, put_end, put_line, put_number_line, put_number_word, put_word,
};
use box_images::Side;
use header_boxes::Box5;
use ordered_cover::Node;
use reference_check::Network;
use std::alloc::Global;
use vpc_base::NoMemory;
use vpc_model::{End, Phase, Stop};

// ---- nodes

fn side_name(side: Side) -> &'static [u8]
    ensures { result.now ≡ side_name side }
{
    match side {
        Side::Proto => b"proto",
        Side::Src => b"src",
        Side::Dst => b"dst",
        Side::P => b"p",
        Side::Q => b"q",
    }
}

// A number of a side.
fn put_number_of(out: &mut Vec<u8>, side: Side, number: u32) -> Result<(), NoMemory>
    ensures { OnOk result (out.new.items ≡ out.old.items ++ word (number_text side number)) }
{
    match side {
        Side::Proto => put_number_word(out, u128::from(number)),
        Side::Src => put_addr_word(out, number),
        Side::Dst => put_addr_word(out, number),
        Side::P => put_number_word(out, u128::from(number)),
        Side::Q => put_number_word(out, u128::from(number)),
    }
}

fn put_cut(out: &mut Vec<u8>, side: Side, number: u32) -> Result<(), NoMemory>
    ensures { OnOk result (out.new.items ≡ out.old.items ++ cut_line side number) }
{
    put(out, b"cut")?;
    put_word(out, side_name(side))?;
    put_number_of(out, side, number)?;
    put_end(out)
}

// What is told of the stop of a leaf.
fn put_told_word(out: &mut Vec<u8>, n: &Network, phase: Phase, s: &Stop) -> Result<(), NoMemory>
    requires { IsTrue (has_text n.now s.now) }
    ensures text { let told = told_stop n.now phase s.now in
        OnOk result (out.new.items ≡ out.old.items ++ word (told_text told)) }
    ensures id { let told = told_stop n.now phase s.now in OnOk result (IsTrue (is_id told.id)) }
    ensures rule { let told = told_stop n.now phase s.now in OnOk result (IsTrue (is_id told.rule)) }
{
    put(out, b" ")?;
    put_told(out, n, phase, s)
}

fn put_leaf(out: &mut Vec<u8>, n: &Network, phase: Phase, s: &Stop) -> Result<(), NoMemory>
    requires { IsTrue (has_text n.now s.now) }
    ensures text { OnOk result (out.new.items ≡ out.old.items ++ leaf_line (told_stop n.now phase s.now)) }
    ensures id { let told = told_stop n.now phase s.now in OnOk result (IsTrue (is_id told.id)) }
    ensures rule { let told = told_stop n.now phase s.now in OnOk result (IsTrue (is_id told.rule)) }
{
    put(out, b"leaf")?;
    put_told_word(out, n, phase, s)?;
    put_end(out)
}

fn put_node(out: &mut Vec<u8>, n: &Network, node: &Node<(Phase, Stop)>) -> Result<(), NoMemory>
    requires { NodeHasText n.now node.now }
    ensures text { OnOk result (out.new.items ≡ out.old.items ++ node_line (told_node n.now node.now)) }
    ensures ids { OnOk result (NodeHasIds (told_node n.now node.now)) }
{
    match node {
        Node::Cut(side, number) => put_cut(out, *side, *number),
        Node::Leaf(word) => put_leaf(out, n, word.0, &word.1),
    }
}

fn put_nodes(out: &mut Vec<u8>, n: &Network, nodes: &[Node<(Phase, Stop)>]) -> Result<(), NoMemory>
    requires { NodesHaveText n.now nodes.now }
    ensures text { OnOk result (out.new.items ≡ out.old.items ++ node_lines (told_nodes n.now nodes.now)) }
    ensures ids { OnOk result (All NodeHasIds (told_nodes n.now nodes.now)) }
{
    for node in nodes {
        put_node(out, n, node)?;
    }
    Ok(())
}

// 1 for a leaf, 0 for a cut.
fn one_if_leaf<W>(node: &Node<W>) -> usize
    ensures { result ≡ leaf_count (node.now ∷ []) }
{
    match node {
        Node::Cut(_, _) => 0,
        Node::Leaf(_) => 1,
    }
}

fn leaf_count<W>(nodes: &[Node<W>]) -> usize
    ensures { result ≡ leaf_count nodes.now }
{
    let mut count = 0;
    for node in nodes {
        count += one_if_leaf(node);
    }
    count
}

// ---- reports

// A query by the ids of its ends, with its box and the nodes of a tree.
fn put_tree(
    out: &mut Vec<u8>,
    n: &Network,
    start: &[u8],
    goal: &[u8],
    sides: &Box5,
    nodes: &[Node<(Phase, Stop)>],
) -> Result<(), NoMemory>
    requires { NodesHaveText n.now nodes.now }
    ensures text { let told = told_nodes n.now nodes.now in OnOk result
        (out.new.items ≡ out.old.items ++ (ends_line start.now goal.now ++ box_line sides.now ++ node_lines told)) }
    ensures ids { OnOk result (All NodeHasIds (told_nodes n.now nodes.now)) }
{
    put_ends_line(out, start, goal)?;
    put_box_line(out, sides)?;
    put_nodes(out, n, nodes)
}

/// The report about a query from one end to another whose boxes are the leaves of a cut tree of its box, each with what stops
/// all headers of its box. A tree takes less room than rows, and that its leaves hold each header once needs no proof.
pub fn print_tree(
    alloc: Global,
    n: &Network,
    start: End,
    goal: End,
    sides: &Box5,
    nodes: &[Node<(Phase, Stop)>],
) -> Result<Vec<u8>, NoMemory>
    requires start { IsTrue (is_end n.now start) }
    requires goal { IsTrue (is_end n.now goal) }
    requires leaves { NodesHaveText n.now nodes.now }
    ensures text { IfOk result (λ text. text.items ≡ tree_text n.now start goal sides.now (told_nodes n.now nodes.now)) }
    ensures ids { IfOk result (λ text. AreTreeIds n.now start goal (told_nodes n.now nodes.now)) }
{
    let mut out = Vec::new(alloc);
    put_line(&mut out, b"vpc-report 2")?;
    put_tree(
        &mut out,
        n,
        end_id(n, &start),
        end_id(n, &goal),
        sides,
        nodes,
    )?;
    put_number_line(&mut out, b"end", leaf_count(nodes) as u128)?;
    Ok(out)
}
