// Nodes to their first targets.
ghost use Rattle.std.specs.Prelude.{◌≡◌, map};
ghost use Rattle.typed_ir.specs.Nodes.{lane_spans};
ghost use Rattle.typed_ir.specs.FlatNodes.{node_of};
ghost use Rattle.typed_ir.specs.Statements.{stmt_of, arm_of, sequence_of, arms_before};
ghost use Rattle.typed_ir.specs.Stmts.{targets, arm_targets, span_of};
ghost use Rattle.typed_ir.specs.Targets.{targets_of};
ghost use Rattle.link.specs.Names.{first_of, first_target};
ghost use Rattle.link.specs.Searches.{searched};

use crate::search::Search;
use typed_ir::{Arm, Lane, Node, Span, Stmt, Target, span_of};

fn first_lane(lanes: &[Lane]) -> Option<Span>
    ensures { result ≡ first_of (lane_spans lanes.now) }
{
    match lanes.split_first() {
        Some((lane, _)) => Some(lane.span),
        None => None,
    }
}

fn search_parts(parts: &[Target], skip: usize) -> Search
    ensures { result ≡ searched (map span_of (targets_of parts.now)) skip }
{
    match parts.get(skip) {
        Some(part) => Search::Found(span_of(part)),
        None => Search::Left(skip - parts.len()),
    }
}

// The target of this number among those of the blocking assignments of a sized statement, in its order: the default of a case stands last.
#[cycle(search)]
fn search(st: &Stmt, skip: usize) -> Search
    ensures { result ≡ searched (targets (stmt_of st.now)) skip }
{
    match st {
        Stmt::Skip | Stmt::Later { .. } => Search::Left(skip),
        Stmt::Assign { targets, .. } => search_parts(targets, skip),
        Stmt::Sequence(list) => search_all(list, skip),
        Stmt::If {
            consequent,
            alternative,
            ..
        } => match search(consequent, skip) {
            Search::Found(span) => Search::Found(span),
            Search::Left(left) => search(alternative, left),
        },
        Stmt::Case {
            arms,
            otherwise,
            ..
        } => search_arms(arms, otherwise, skip),
    }
}

#[cycle(search)]
fn search_all(list: &[Stmt], skip: usize) -> Search
    ensures { result ≡ searched (targets (sequence_of (map stmt_of list.now))) skip }
{
    let mut left = skip;
    for st in list {
        match search(st, left) {
            Search::Found(span) => return Search::Found(span),
            Search::Left(more) => left = more,
        }
    }
    Search::Left(left)
}

#[cycle(search)]
fn search_arms(arms: &[Arm], otherwise: &Stmt, skip: usize) -> Search
    ensures { result ≡ searched (arm_targets (arms_before (map arm_of arms.now) (stmt_of otherwise.now))) skip }
{
    let mut left = skip;
    for arm in arms {
        match search(&arm.body, left) {
            Search::Found(span) => return Search::Found(span),
            Search::Left(more) => left = more,
        }
    }
    search(otherwise, left)
}

/// The first target of a node: the first part left of an assignment, and of a block the target that it tells.
pub fn first_target(node: &Node) -> Option<Span>
    ensures { result ≡ first_target (node_of node.now) }
{
    match node {
        Node::Drive { lanes, .. } => first_lane(lanes),
        Node::Block { shown, body } => match search(body, shown.number) {
            Search::Found(span) => Some(span),
            Search::Left(_) => None,
        },
    }
}
