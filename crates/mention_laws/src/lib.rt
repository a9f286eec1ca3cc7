// What an item mentions are the signals of its sized form.
//
// `laws` says so of the mentions of `width_rules`, against the definitions of `statement_rules` and `block_rules`. It is over definitions alone,
// so there is nothing to run here.
#![tactic(auto)]

mod laws;

pub use laws::{
    a_second_default_is_not_listed, blocks_are_named_by_their_first_target, default_comes_last,
    mentions_are_of_leaves,
};
