// The tree of a Verilog text: modules, items, statements, targets and expressions, each with its place.
//
// One type a file, but for three pairs of types that hold one another, of which each is one recursion and is walked as one: `Expr` with `Reference`,
// `Stmt` with `Arm`, `GenerateItem` with `Branch`. `nodes` has what holds the parts of a node.
//
// A `module` has its `module_body`: a name (`identifier`), parameters (`header_parameter`), `ports` (a `header_port` each, where the header declares
// them) and items. A declaration has a sign and a range (`shape`, `range`), for a port also what stands before its sign (`port_net`), and then names
// with their values (`variable`, `reg_variable`, `parameter`).
//
// An `item` declares ports or parameters, or may stand in a generate block too (`generate_item`, with the head of a loop, `generate_loop`). A
// `plain_item` is one without a generate construct: a declaration, assignments (`continuous`), an `always` block, or instances (`instance`), each
// with its `connections` (`named_connection`, `ordered_connection`). The statements of a block (`statement`) have assignments of one `sign`, each to
// a `target`, and cases (`case_kind`), whose items have labels (`label`; one with don't-cares is a `pattern`). An `expression` has numbers
// (`number`), names and operators (`unary_operator`, `binary_operator`).
//
// All that is defined above the parser speaks of the plain data that `specs/Views` gives of a tree; `laws` says that this loses nothing, and keeps
// names and renaming.
#![tactic(auto)]

mod binary_operator;
mod case_kind;
mod connections;
mod continuous;
mod expression;
mod generate_item;
mod generate_loop;
mod header_parameter;
mod header_port;
mod identifier;
mod instance;
mod item;
mod label;
mod laws;
mod module;
mod module_body;
mod named_connection;
mod nodes;
mod number;
mod ordered_connection;
mod parameter;
mod pattern;
mod plain_item;
mod port_net;
mod ports;
mod range;
mod reg_variable;
mod shape;
mod sign;
mod statement;
mod target;
mod unary_operator;
mod variable;

pub use binary_operator::BinaryOperator;
pub use case_kind::CaseKind;
pub use connections::Connections;
pub use continuous::Continuous;
pub use expression::{Expr, Reference};
pub use generate_item::{Branch, GenerateItem};
pub use generate_loop::Loop;
pub use header_parameter::HeaderParameter;
pub use header_port::HeaderPort;
pub use identifier::Identifier;
pub use instance::Instance;
pub use item::Item;
pub use label::Label;
pub use laws::{names_are_numbers, names_stay_in_views, views_lose_nothing};
pub use module::Module;
pub use module_body::ModuleBody;
pub use named_connection::NamedConnection;
pub use nodes::{Child, Children};
pub use number::Number;
pub use ordered_connection::OrderedConnection;
pub use parameter::Parameter;
pub use pattern::Pattern;
pub use plain_item::PlainItem;
pub use port_net::PortNet;
pub use ports::Ports;
pub use range::Range;
pub use reg_variable::RegVariable;
pub use shape::Shape;
pub use sign::Sign;
pub use statement::{Arm, Stmt};
pub use target::Lhs;
pub use unary_operator::UnaryOperator;
pub use variable::Variable;
