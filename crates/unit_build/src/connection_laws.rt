// Where the nodes of connections stand.
ghost use Rattle.std.specs.Prelude.{◌≡◌, ◌≤◌, ◌<◌, ◌+◌, ◌++◌, ℕ, true, List, [], ◌∷◌, length};
ghost use Rattle.typed_ir.specs.declared.child_shape.ChildShape.{ChildShape};
ghost use Rattle.typed_ir.specs.Nodes.{are_lanes};
ghost use Rattle.typed_ir.specs.Orders.{Each};
ghost use Rattle.typed_ir.specs.Stmts.{is_sized};
ghost use Rattle.typed_ir.specs.Items.{nodes_in};
ghost use Rattle.typed_ir.specs.OwnWidths.{names_child, port_widths};
ghost use Rattle.typed_ir.specs.Shapes.{goes_into_input};
ghost use Rattle.typed_ir.specs.Trees.{count, port_drives};
ghost use Rattle.verilog_ast.specs.Items.{ModuleInstance, ConnectionList};
ghost use Rattle.width_rules.specs.Scopes.{Scope};
ghost use Rattle.unit_build.specs.ConnectionNodes.{port_lane, port_value};
ghost use Rattle.unit_build.specs.Connections.{connected_to};
ghost use Rattle.unit_build.specs.Instances.{instance_items};

/// The nodes of the instances of one item are of these instances, each input goes into a data input, and at most one drives a bit of a
/// port, none that of a port of other instances. What a connection writes or reads of its child lies in the child's ports.
#[tactic(none)]
pub fn connections_stand()
    ensures once { (scope : Scope) (first : ℕ) (shapes : List ChildShape) (instances : List ModuleInstance) (c s i : ℕ)
        → count (port_drives c s i) (nodes_in (instance_items scope first shapes instances)) ≤ 1 }
    ensures before { (scope : Scope) (first : ℕ) (shapes : List ChildShape) (instances : List ModuleInstance) (c s i : ℕ) → c < first
        → count (port_drives c s i) (nodes_in (instance_items scope first shapes instances)) ≡ 0 }
    ensures behind { (scope : Scope) (first : ℕ) (shapes : List ChildShape) (instances : List ModuleInstance) (c s i : ℕ) → first + length shapes ≤ c
        → count (port_drives c s i) (nodes_in (instance_items scope first shapes instances)) ≡ 0 }
    ensures children { (scope : Scope) (first total : ℕ) (shapes : List ChildShape) (instances : List ModuleInstance) → first + length shapes ≤ total
        → Each (λ n. names_child total n ≡ true) (nodes_in (instance_items scope first shapes instances)) }
    ensures into { (scope : Scope) (first : ℕ) (before shapes after : List ChildShape) (instances : List ModuleInstance) → length before ≡ first
        → Each (λ n. goes_into_input (before ++ (shapes ++ after)) n ≡ true) (nodes_in (instance_items scope first shapes instances)) }
    ensures lanes { (child : ChildShape) (connections : ConnectionList)
        → Each (λ c. are_lanes (port_lane c ∷ []) (port_widths child) ≡ true) (connected_to child connections) }
    ensures values { (child : ChildShape) (connections : ConnectionList) (width : ℕ) → width ≤ 128
        → Each (λ c. is_sized (port_value c width) (port_widths child) ≡ true) (connected_to child connections) }
{}
