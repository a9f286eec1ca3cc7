// Flat designs, and modules by numbers of their own: sized expressions, statements and nodes, and what they do to a valuation of the signals.
//
// Expressions: `typed` builds sized ones, whose widths agree, of the layers of `form`, which evaluates them by `apply`. Operators are
// `unary_operator` and, in groups, `binary_operator`: `arithmetic_operator`, `comparison`, `shift_operator` and `logical_operator`; `signedness`
// says how one reads its operands. A `constant` is a value with its sign, and an `env` has the values of all signals.
//
// Statements (`stmt`) and nodes (`node`) are data: `specs/` says what they do, and the steps that other crates lay them out as do it. An `arm` of
// a case has what its expression is compared with (`item`); a `target` is a part of what stands left of an assignment, bits that are known
// (`lane`) or a select at run time (`reach`). Bits: a `span` is a run of bits of a signal, a `touch` some bits as a mask, and an `update`, of which
// contracts alone speak, bits with what is written there. `writing` lists those that a clocked block may write, `touching` those that a node drives
// and reads.
//
// Whole designs: `rooting` makes a table of instances (`instance_table`), each with its place (`instance_name`); `flat` keeps what a design's parts
// have to be, with its nets and variables (`signal`), and `linked` an order of its nodes too. `laws` says of such a design that the order settles
// its wires. Numbers that stand for something have types of their own, which contracts see as numbers: `signal_id`, `register_id`, `node_id` (a list
// of these is a `node_list`), `instance_id` and, within a module, `child_id`.
//
// Modules, as types alone of what others make. `typed_items` are the items of a module (`typed_item`), each sized (`item_body`) and with its places
// (`item_places`), with names where they stand in the text (`mention`). `unit_parts` are these without places, with nets and variables
// (`unit_signal`) and nodes (`unit_node`); `unit` has those that are sound and sized. `signal_declaration` says what a signal is declared as
// (`signal_kind`), `shown_target` which target names a block, and `target_form` in which form it is shown. `shape_list` and `port_list` are instances
// (`child_shape`) and ports (`port_shape`) as they are seen from above, `instance_tree` the instances of a design, each an `instance` with the values
// of its parameters (`const_list`). `shifting` copies an expression, a statement or a node to other numbers of signals, as linking does for each
// instance. `linking_laws` says what the definition of linking keeps.
#![tactic(auto)]

mod apply;
mod arithmetic_operator;
mod arm;
mod binary_operator;
mod child_id;
mod child_shape;
mod comparison;
mod const_list;
mod constant;
mod env;
mod flat;
mod form;
mod instance;
mod instance_id;
mod instance_name;
mod instance_table;
mod instance_tree;
mod item;
mod item_body;
mod item_places;
mod lane;
mod laws;
mod linked;
mod linking_laws;
mod logical_operator;
mod mention;
mod node;
mod node_id;
mod node_list;
mod port_list;
mod port_shape;
mod reach;
mod register_id;
mod rooting;
mod shape_list;
mod shift_operator;
mod shifting;
mod shown_target;
mod signal;
mod signal_declaration;
mod signal_id;
mod signal_kind;
mod signedness;
mod span;
mod stmt;
mod target;
mod target_form;
mod touch;
mod touching;
mod typed;
mod typed_item;
mod typed_items;
mod unary_operator;
mod unit;
mod unit_node;
mod unit_parts;
mod unit_signal;
mod update;
mod writing;

pub use arithmetic_operator::ArithmeticOperator;
pub use arm::Arm;
pub use binary_operator::BinaryOperator;
pub use child_id::ChildId;
pub use child_shape::ChildShape;
pub use comparison::Comparison;
pub use const_list::ConstList;
pub use constant::Const;
pub use env::Env;
pub use flat::Flat;
pub use form::{Form, is_signal, is_span};
pub use instance::Instance;
pub use instance_id::InstanceId;
pub use instance_name::InstanceName;
pub use instance_table::InstanceTable;
pub use instance_tree::InstanceTree;
pub use item::Item;
pub use item_body::ItemBody;
pub use item_places::ItemPlaces;
pub use lane::Lane;
pub use laws::{order_settles, runs_join};
pub use linked::Linked;
pub use linking_laws::linking_is_sound;
pub use logical_operator::LogicalOperator;
pub use mention::Mention;
pub use node::Node;
pub use node_id::NodeId;
pub use node_list::NodeList;
pub use port_list::PortList;
pub use port_shape::PortShape;
pub use reach::Reach;
pub use register_id::RegisterId;
pub use shape_list::ShapeList;
pub use shift_operator::ShiftOperator;
pub use shifting::{shifted_form, shifted_node, shifted_stmt, shifted_typed};
pub use shown_target::ShownTarget;
pub use signal::Signal;
pub use signal_declaration::SignalDeclaration;
pub use signal_id::SignalId;
pub use signal_kind::SignalKind;
pub use signedness::Signedness;
pub use span::Span;
pub use stmt::Stmt;
pub use target::{Target, span_of};
pub use target_form::TargetForm;
pub use touch::Touch;
pub use touching::{drives_of, reads_of, run_mask, touches_of};
pub use typed::{Typed, fits, value};
pub use typed_item::TypedItem;
pub use typed_items::TypedItems;
pub use unary_operator::UnaryOperator;
pub use unit::Unit;
pub use unit_node::UnitNode;
pub use unit_parts::UnitParts;
pub use unit_signal::UnitSignal;
pub use update::Update;
pub use writing::later_spans;
